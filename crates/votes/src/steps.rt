// The five steps of the selection over the leader's table. Each count of rows is a mask's count of ones.
ghost use Rattle.std.specs.Prelude.{◌≡◌, ◌≤◌, ◌<◌, ◌^◌};
ghost use Rattle.base.specs.Refusal.{judged};
ghost use Rattle.seats.specs.Mask.{bit};
ghost use Rattle.votes.specs.Selection.{selection};
ghost use Rattle.votes.specs.Rows.{vote_at, call_refusals, chosen};

use crate::{Choice, VoteRows, Votes, search};
use base::refusal::{Refusal, refuse_if};
use entry::table;
use seats::{View, mask, sizes};

impl Votes {
    // 01's steps over the rows of a mask. Marks and certificates of votes play no part any more.
    pub(crate) fn five_steps(&self, rows: u64, n: u8, f: u8) -> Choice
        requires { (0 < n) × (n ≤ 64) × (rows < 2 ^ n) }
        ensures { result ≡ selection n f (bit rows) (vote_at self.now) }
    {
        let quorum = sizes::quorum(n, f);
        if mask::seats_in(rows) < quorum {
            return Choice::Wait;
        }
        let votes = rows & self.cast;
        if votes == 0 {
            return Choice::Free;
        }
        let w = self.top_view(votes, n);
        let top = self.at_view(votes, n, w);
        if !self.two_among(top, n) {
            return Choice::Forced(table::entry_at(&self.entries, top.trailing_zeros() as usize));
        }
        let liar = mask::with_seat(0, seats::leader(View(w), n));
        let others = mask::without(rows, liar);
        if mask::seats_in(others) < quorum {
            return Choice::Wait;
        }
        search::forced_to(self.smallest_backed(mask::without(top, liar), n, 2 * (f as u32)))
    }
}

// 1, 2 or 5.
pub(crate) fn check_call(n: u8, f: u8, v: View) -> Result<(), Refusal>
    ensures { result ≡ judged (call_refusals n f v) }
{
    sizes::check_sizes(n, f)?;
    refuse_if(v.0 == 0, Refusal::NoView)
}

impl VoteRows {
    // The leader's own selection, over its table. A row of that table that is not valid counts as empty, so there is no 15 here: 15 is
    // for rows that come in a list.
    pub fn choose_among(&self, n: u8, f: u8, v: View) -> Result<Choice, Refusal>
        ensures { result ≡ chosen n f v self.now }
    {
        check_call(n, f, v)?;
        // Filled rows are counted before they are checked: most calls end there.
        let inside = mask::below(n) & self.filled;
        if mask::seats_in(inside) < sizes::quorum(n, f) {
            return Ok(Choice::Wait);
        }
        let rows = self.present(n, f, v);
        Ok(self.votes.five_steps(rows, n, f))
    }
}
