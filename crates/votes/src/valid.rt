// When a vote is valid, and 64 votes in one struct.
ghost use Rattle.std.specs.Prelude.{◌≡◌, ◌<◌, true};
ghost use Rattle.votes.specs.Vote.{valid};
ghost use Rattle.votes.specs.Rows.{vote_at, has_row};

use crate::{Vote, VoteRows, Votes};
use entry::table;
use seats::{View, certificate, mask};

// Nil first: most votes of an honest house are nil or cheap to check.
#[tactic(auto, unfolding(crate::specs::Vote::valid))]
pub fn valid(n: u8, f: u8, v: View, x: Vote) -> bool
    ensures { result ≡ valid n f v x }
{
    if !x.cast {
        return true;
    }
    let backed = certificate::good_certificate(n, f, x.view, x.mask) & x.verified;
    (1 <= x.view.0) & ((x.view < v) & (entry::well_formed(x.entry) & backed))
}

impl Votes {
    // Vote k of 64.
    #[tactic(auto, unfolding(crate::specs::Rows::vote_at))]
    pub(crate) fn vote_at(&self, k: usize) -> Vote
        requires { k < 64 }
        ensures { result ≡ vote_at self.now k }
    {
        Vote {
            entry: table::entry_at(&self.entries, k),
            mask: self.masks[k],
            view: View(self.views[k]),
            cast: mask::has(self.cast, k),
            verified: mask::has(self.verified, k),
        }
    }
}

impl VoteRows {
    // Whether seat k's row is filled and valid.
    #[tactic(auto, using(crate::proofs::Held::row_low), unfolding(crate::specs::Rows::has_row))]
    pub(crate) fn has_row(&self, n: u8, f: u8, v: View, k: usize) -> bool
        ensures test { result ≡ has_row n f v self.now k }
        ensures low { result ≡ true → k < 64 }
    {
        mask::has(self.filled, k) && valid(n, f, v, self.votes.vote_at(k))
    }
}
