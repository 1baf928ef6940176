// Tables of votes, and the rows of a request, gathered one after the other.
ghost use Rattle.std.specs.Prelude.{◌≡◌};
ghost use Rattle.votes.specs.Rows.{no_votes, with_vote, no_rows, added, selected_from};

use crate::valid::valid;
use crate::{Choice, Row, Rows, Vote, VoteRows, Votes, steps};
use base::refusal::{Refusal, refuse_if};
use entry::table;
use seats::table::put_value;
use seats::{Seat, View, mask};

impl VoteRows {
    // No row filled.
    pub fn none() -> VoteRows
        ensures { result ≡ no_votes }
    {
        VoteRows {
            filled: 0,
            votes: Votes {
                cast: 0,
                verified: 0,
                entries: table::no_entries(),
                masks: [0; 64],
                views: [0; 64],
            },
        }
    }

    // Fills in a seat's vote. There is no row past the 64th: nothing changes there.
    #[tactic(auto, using(crate::specs::TableLaws::stored))]
    pub fn put(&mut self, s: Seat, x: Vote)
        ensures { self.new ≡ with_vote self.old s.0 x }
    {
        let k = s.0 as usize;
        self.filled = mask::with_seat(self.filled, s);
        self.votes.cast = mask::put(self.votes.cast, s, x.cast);
        self.votes.verified = mask::put(self.votes.verified, s, x.verified);
        table::put_entry(&mut self.votes.entries, k, x.entry);
        put_value(&mut self.votes.masks, k, x.mask);
        put_value(&mut self.votes.views, k, x.view.0);
    }

    // The table with a seat's vote filled in.
    pub fn with_vote(mut self, s: Seat, x: Vote) -> VoteRows
        ensures { result ≡ with_vote self s.0 x }
    {
        self.put(s, x);
        self
    }
}

impl Rows {
    // No row yet.
    #[tactic(auto, unfolding(crate::specs::Rows::no_rows))]
    pub fn none(n: u8, f: u8, v: View) -> Rows
        ensures { result ≡ no_rows n f v }
    {
        Rows {
            view: v,
            next: 0,
            n,
            f,
            broken: false,
            table: VoteRows::none(),
        }
    }

    // One row more. Whether it fits is looked at once, here.
    #[tactic(auto, unfolding(crate::specs::Rows::added, crate::specs::Rows::sound))]
    pub fn add(mut self, row: Row) -> Rows
        ensures { result ≡ added self row }
    {
        let k = row.seat.0;
        let rising = (self.next <= k as u32) & (k < self.n);
        let sound = row.verified
            & ((row.view == self.view) & valid(self.n, self.f, self.view, row.vote));
        self.broken = self.broken | !(rising & sound);
        self.next = (k as u32) + 1;
        self.table.put(row.seat, row.vote);
        self
    }

    // The selection by itself: 1, 2, 5, 15 or the choice.
    pub fn select(self) -> Result<Choice, Refusal>
        ensures { result ≡ selected_from self }
    {
        steps::check_call(self.n, self.f, self.view)?;
        refuse_if(self.broken, Refusal::Rows)?;
        let rows = mask::below(self.n) & self.table.filled;
        Ok(self.table.votes.five_steps(rows, self.n, self.f))
    }
}
