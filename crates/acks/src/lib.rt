// The acknowledgement rows: one a seat, kept as a table by value.
#![tactic(auto)]

ghost use Rattle.std.specs.Prelude.{◌≡◌, ℕ, Bool, ◌<◌, ◌≤◌, ◌&&◌};
ghost use Rattle.seats.specs.Mask.{mask, rows_of};
ghost use Rattle.seats.specs.Seats.{count};
ghost use Rattle.acks.specs.Acks.{no_acks, row_of, with_row, is_filled, shares, sharers, most, margin};

use entry::table::Entries;
use entry::{Entry, table};
use seats::table::{put_value, value_at};
use seats::{Seat, View, mask, sizes};

// Empty where its view is 0.
#[derive(Clone, Copy)]
pub struct AckRow {
    pub view: View,
    pub entry: Entry,
}

// One array a field: so C lends them (station's `replica_of`), and so a loop over one of them takes several rows at once.
#[derive(Clone, Copy)]
pub struct Acks {
    pub entries: Entries,
    pub views: [u32; 64],
}

impl Acks {
    // Every row empty.
    pub fn none() -> Acks
        ensures { result ≡ no_acks }
    {
        Acks {
            entries: table::no_entries(),
            views: [0; 64],
        }
    }

    // Writes a seat's row. There is no row past the 64th: nothing changes there.
    #[tactic(auto, unfolding(crate::specs::Acks::with_row))]
    pub fn put(&mut self, s: Seat, row: AckRow)
        ensures { self.new ≡ with_row self.old s.0 row }
    {
        let k = s.0 as usize;
        table::put_entry(&mut self.entries, k, row.entry);
        put_value(&mut self.views, k, row.view.0);
    }

    // The table with a seat's row written.
    pub fn with_row(mut self, s: Seat, row: AckRow) -> Acks
        ensures { result ≡ with_row self s.0 row }
    {
        self.put(s, row);
        self
    }

    // Seat k's row; past the 64th the empty one.
    #[tactic(auto, unfolding(crate::specs::Acks::row_of))]
    pub fn row_of(&self, k: usize) -> AckRow
        ensures { result ≡ row_of self.now k }
    {
        AckRow {
            view: View(value_at(&self.views, k, 0)),
            entry: table::entry_at(&self.entries, k),
        }
    }

    // The seats below n whose row is filled.
    fn filled(&self, n: u8) -> u64
        ensures { result ≡ mask (λ k. is_filled (row_of self.now k)) (rows_of n) }
    {
        packed(mask::rows_of(n), |k| value_at(&self.views, k, 0) != 0)
    }

    // The seats below n whose row is filled and this very row.
    pub fn sharers(&self, n: u8, a: AckRow) -> u64
        ensures { result ≡ sharers n (row_of self.now) a }
    {
        packed(mask::rows_of(n), |k| filled_shares(self.row_of(k), a))
    }

    // How many of the seats' rows are this very row, filled or not. No branch, so that several rows are in one step.
    fn alike(&self, n: u8, a: AckRow) -> u32
        ensures { result ≡ count (λ k. shares (row_of self.now k) a) (rows_of n) }
    {
        let mut count: u32 = 0;
        for k in 0..mask::rows_of(n) {
            count += u32::from(shares(self.row_of(k), a));
        }
        count
    }

    // Group by group over the filled rows, while what is left could be a larger group.
    fn most_by_groups(&self, n: u8) -> u32
        ensures { result ≡ most n (row_of self.now) }
    {
        let mut left = self.filled(n);
        let mut best: u32 = 0;
        while best < left.count_ones() {
            let row = self.row_of(left.trailing_zeros() as usize);
            let group = self.sharers(n, row);
            best = base::larger(best, group.count_ones());
            left = mask::without(left, group);
        }
        best
    }

    // A row that half of the seats have is what most share; where they acknowledge one after the other the middle seat has it.
    pub fn most(&self, n: u8) -> u32
        ensures { result ≡ most n (row_of self.now) }
    {
        let row = self.row_of((n / 2) as usize);
        let group = self.alike(n, row);
        if (row.view.0 != 0) & (n as u32 <= 2 * group) {
            return group;
        }
        self.most_by_groups(n)
    }

    pub fn margin(&self, n: u8, f: u8) -> i32
        ensures { result ≡ margin n f (row_of self.now) }
    {
        (self.most(n) as i32) - (sizes::quorum(n, f) as i32)
    }
}

// Not a derived `==`: that ends at the first part that differs, and `alike` compares several rows in one step (`entry::same`).
#[tactic(auto, unfolding(crate::specs::Acks::shares))]
pub fn shares(a: AckRow, b: AckRow) -> bool
    ensures { result ≡ shares a b }
{
    (a.view == b.view) & entry::same(a.entry, b.entry)
}

// An empty row is nobody's: it shares nothing.
fn filled_shares(row: AckRow, a: AckRow) -> bool
    ensures { result ≡ (is_filled row && shares row a) }
{
    (row.view.0 != 0) & shares(row, a)
}

// The seats below n that pass, as a mask. Downwards, so that seat 0 ends as the lowest bit. (votes has one of its own: a public
// function asks nothing, and a call of a closure asks that it may be called.)
fn packed<F: Fn(usize) -> bool>(n: usize, passes: F) -> u64
    requires room { n ≤ 64 }
    requires call { (k : ℕ) → k < n → F.pre passes k }
    ensures { (p : ℕ → Bool) → ((k : ℕ) (b : Bool) → k < n → F.post passes k b → b ≡ p k) → result ≡ mask p n }
{
    let mut m: u64 = 0;
    for k in (0..n).rev() {
        m = 2 * m + u64::from(passes(k));
    }
    m
}
