// What the five steps look for among the rows: each set of rows is a mask.
ghost use Rattle.std.specs.Prelude.{◌≡◌, ℕ, Bool, ◌<◌, ◌&&◌, not, cond, ◌≤◌, eqb, leb, get_or};
ghost use Rattle.entry.specs.Entry.{same};
ghost use Rattle.entry.specs.Table.{entry_at};
ghost use Rattle.seats.specs.Seats.{some_seat, highest};
ghost use Rattle.seats.specs.Mask.{bit, mask, rows_of, seats_in};
ghost use Rattle.votes.specs.Selection.{smaller, smallest, forced_to};
ghost use Rattle.votes.specs.Rows.{has_row};

use crate::{Choice, VoteRows, Votes};
use entry::{Entry, table};
use seats::{View, mask};

impl VoteRows {
    // The seats whose row is filled and valid.
    pub(crate) fn present(&self, n: u8, f: u8, v: View) -> u64
        ensures { result ≡ mask (has_row n f v self.now) (rows_of n) }
    {
        packed(mask::rows_of(n), |k| self.has_row(n, f, v, k))
    }
}

impl Votes {
    // The highest view of some rows.
    #[tactic(auto, using(seats::specs::Count::highest_none, seats::specs::Count::highest_more, seats::specs::Marks::rows_le))]
    pub(crate) fn top_view(&self, rows: u64, n: u8) -> u32
        ensures { result ≡ highest (λ k. cond (bit rows k) (get_or self.now.views k 0) 0) (rows_of n) }
    {
        let mut w: u32 = 0;
        for k in 0..mask::rows_of(n) {
            let u = base::pick(mask::has(rows, k), self.views[k], 0);
            w = base::larger(u, w);
        }
        w
    }

    // Those at view w.
    pub(crate) fn at_view(&self, rows: u64, n: u8, w: u32) -> u64
        ensures { result ≡ mask (λ k. bit rows k && eqb (get_or self.now.views k 0) w) (rows_of n) }
    {
        packed(
            mask::rows_of(n),
            |k| mask::has(rows, k) & (self.views[k] == w),
        )
    }

    // Those for an entry.
    pub(crate) fn holding(&self, rows: u64, n: u8, e: Entry) -> u64
        ensures { result ≡ mask (λ k. bit rows k && same (entry_at self.now.entries k) e) (rows_of n) }
    {
        packed(
            mask::rows_of(n),
            |k| mask::has(rows, k) & entry::same(table::entry_at(&self.entries, k), e),
        )
    }

    // Whether two of the rows differ: the first of them, and one behind it that has another entry.
    pub(crate) fn two_among(&self, rows: u64, n: u8) -> bool
        ensures { result ≡ some_seat (λ j. some_seat (λ k. (bit rows j && bit rows k) && not (same (entry_at self.now.entries j) (entry_at self.now.entries k))) (rows_of n)) (rows_of n) }
    {
        let end = mask::rows_of(n);
        let mut differ = false;
        // 01 names this form: nested loops, left by a labelled break.
        'search: for i in 0..end {
            if mask::has(rows, i) {
                let a = table::entry_at(&self.entries, i);
                for j in i + 1..end {
                    if mask::has(rows, j) & (a != table::entry_at(&self.entries, j)) {
                        differ = true;
                        break 'search;
                    }
                }
                break 'search;
            }
        }
        differ
    }

    // The smallest entry that at least `need` of the rows are for.
    pub(crate) fn smallest_backed(&self, rows: u64, n: u8, need: u32) -> Option<Entry>
        ensures { result ≡ smallest (λ k. bit rows k && leb need (seats_in (mask (λ j. bit rows j && same (entry_at self.now.entries j) (entry_at self.now.entries k)) (rows_of n)))) (entry_at self.now.entries) (rows_of n) }
    {
        let mut b = None;
        for k in 0..mask::rows_of(n) {
            let e = table::entry_at(&self.entries, k);
            if mask::has(rows, k) && need <= mask::seats_in(self.holding(rows, n, e)) {
                b = Some(smaller(e, b));
            }
        }
        b
    }
}

// The seats below n that pass, as a mask. Downwards, so that seat 0 ends as the lowest bit. (acks has one of its own: a public
// function asks nothing, and a call of a closure asks that it may be called.)
fn packed<F: Fn(usize) -> bool>(n: usize, passes: F) -> u64
    requires room { n ≤ 64 }
    requires call { (k : ℕ) → k < n → F.pre passes k }
    ensures { (p : ℕ → Bool) → ((k : ℕ) (b : Bool) → k < n → F.post passes k b → b ≡ p k) → result ≡ mask p n }
{
    let mut m: u64 = 0;
    for k in (0..n).rev() {
        m = 2 * m + u64::from(passes(k));
    }
    m
}

// The smaller of an entry and the smallest so far.
#[tactic(auto, using(entry::specs::Derived::derived_less))]
fn smaller(e: Entry, b: Option<Entry>) -> Entry
    ensures { result ≡ smaller e b }
{
    match b {
        Some(old) if old < e => old,
        _ => e,
    }
}

pub(crate) fn forced_to(b: Option<Entry>) -> Choice
    ensures { result ≡ forced_to b }
{
    match b {
        Some(e) => Choice::Forced(e),
        None => Choice::Free,
    }
}
