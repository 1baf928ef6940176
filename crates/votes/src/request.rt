// The rows of a request: what is asked of those that came, and the ones that a leader sends.
ghost use Rattle.std.specs.Prelude.{◌≡◌, cond, leb};
ghost use Rattle.base.specs.Refusal.{judged};
ghost use Rattle.seats.specs.Mask.{mask};
ghost use Rattle.votes.specs.Rows.{has_row};
ghost use Rattle.votes.specs.Request.{allowed, gathered_refusals, row_sent};

use crate::{Choice, Row, Rows, VoteRows};
use base::refusal::{Refusal, refuse_if};
use entry::Entry;
use seats::{Seat, View, mask, sizes};

// Whether a request for an entry goes with what the selection answers.
#[tactic(auto, using(entry::specs::Derived::derived_same))]
fn allowed(c: Result<Choice, Refusal>, e: Entry) -> bool
    ensures { result ≡ allowed c e }
{
    match c {
        Err(_) => false,
        Ok(Choice::Wait) => false,
        Ok(Choice::Free) => true,
        Ok(Choice::Forced(x)) => x == e,
    }
}

impl Rows {
    // 15 or 16, for a request of a house and view.
    pub fn check_request(self, n: u8, f: u8, v: View, e: Entry) -> Result<(), Refusal>
        ensures { result ≡ judged (gathered_refusals self n f v e) }
    {
        let theirs = (self.n == n) & (self.f == f) & (self.view == v);
        let few = mask::seats_in(mask::below(self.n) & self.table.filled)
            < sizes::quorum(self.n, self.f);
        let c = self.select();
        refuse_if(!theirs | (few | c.is_err()), Refusal::Rows)?;
        refuse_if(!allowed(c, e), Refusal::Selection)
    }
}

impl VoteRows {
    // Which rows of the leader's table count: filled, valid, of a seat below n.
    pub fn rows_held(&self, n: u8, f: u8, v: View) -> u64
        ensures { result ≡ cond (leb n 64) (mask (has_row n f v self.now) n) 0 }
    {
        if 64 < n {
            return 0;
        }
        self.present(n, f, v)
    }

    // Whether a seat's row is filled and valid. Whoever asks has seen to it that the seat is below n.
    pub fn row_held(&self, n: u8, f: u8, v: View, s: Seat) -> bool
        ensures { result ≡ has_row n f v self.now s.0 }
    {
        self.has_row(n, f, v, s.0 as usize)
    }

    // A seat's row as it stands in a request that the leader sends, if it has one.
    #[tactic(auto, unfolding(crate::specs::Request::row_sent, crate::specs::Request::row_at))]
    pub fn request_row(&self, n: u8, f: u8, v: View, s: Seat) -> Option<Row>
        ensures { result ≡ row_sent n f v self.now s }
    {
        let k = s.0 as usize;
        if (s.0 < n) & self.has_row(n, f, v, k) {
            return Some(Row {
                seat: s,
                verified: true,
                view: v,
                vote: self.votes.vote_at(k),
            });
        }
        None
    }
}
