// Why setup and each event refuse: the first of 01's table that applies.
ghost use Rattle.std.specs.Prelude.{◌≡◌, [], ◌++◌};
ghost use Rattle.base.specs.Refusal.{judged};
ghost use Rattle.votes.specs.Request.{gathered_refusals};
ghost use Rattle.replica.specs.Refusals.{setup_refusals, head_refusals, start_refusals, enter_refusals, propose_refusals, acknowledge_refusals, cast_refusals, ask_refusals, confirm_refusals};
ghost use Rattle.replica.specs.Replica.{standing, own_refusals};

use crate::{ASKING, COLLECTING, PROPOSED, Replica};
use base::refusal::{Refusal, refuse_if};
use entry::{Entry, well_formed};
use messages::{Assent, Head, Proposal, Request};
use seats::certificate::good_certificate;
use seats::sizes::check_seat;
use seats::{Seat, View, leader, mask};
use votes::valid::valid;
use votes::{Row, Rows};

pub fn check_setup(n: u8, f: u8, s: Seat, own: Entry) -> Result<(), Refusal>
    ensures { result ≡ judged (setup_refusals n f s own) }
{
    check_seat(n, f, s)?;
    refuse_if(!well_formed(own), Refusal::OwnEntry)
}

// Each event asks first whether setup would refuse the replica.
impl Replica {
    pub(crate) fn check_own(&self) -> Result<(), Refusal>
        ensures { result ≡ judged (own_refusals self.now) }
    {
        check_setup(self.n, self.f, self.seat, self.own)
    }

    fn check_head(&self, h: Head) -> Result<(), Refusal>
        ensures { result ≡ judged (own_refusals self.now ++ head_refusals (standing self.now) h []) }
    {
        self.check_own()?;
        refuse_if(h.view == View(0), Refusal::NoView)?;
        refuse_if(self.n <= h.seat.0, Refusal::Sender)?;
        refuse_if(!h.verified, Refusal::Mark)
    }

    pub(crate) fn check_start(&self) -> Result<(), Refusal>
        ensures { result ≡ judged (own_refusals self.now ++ start_refusals (standing self.now)) }
    {
        self.check_own()?;
        refuse_if(self.view != View(1), Refusal::View)?;
        refuse_if(leader(self.view, self.n) != self.seat, Refusal::Leader)?;
        refuse_if(self.stage.0 == PROPOSED, Refusal::Again)
    }

    pub(crate) fn check_enter(&self, v: View) -> Result<(), Refusal>
        ensures { result ≡ judged (own_refusals self.now ++ enter_refusals (standing self.now) v) }
    {
        self.check_own()?;
        refuse_if(v == View(0), Refusal::NoView)?;
        refuse_if(v <= self.view, Refusal::View)
    }

    pub(crate) fn check_propose(&self, p: Proposal) -> Result<(), Refusal>
        ensures { result ≡ judged (own_refusals self.now ++ propose_refusals (standing self.now) self.now.vote p) }
    {
        self.check_head(p.head)?;
        refuse_if(p.head.view != self.view, Refusal::View)?;
        refuse_if(leader(p.head.view, self.n) != p.head.seat, Refusal::Leader)?;
        refuse_if(!well_formed(p.entry), Refusal::Entry)?;
        refuse_if(
            !good_certificate(self.n, self.f, p.head.view, p.mask),
            Refusal::Certificate,
        )?;
        refuse_if(
            self.vote.cast & (self.vote.view == p.head.view),
            Refusal::Again,
        )
    }

    // `row` is the view of the sender's row.
    pub(crate) fn check_acknowledge(&self, row: View, a: Assent) -> Result<(), Refusal>
        ensures { result ≡ judged (own_refusals self.now ++ acknowledge_refusals (standing self.now) row a) }
    {
        self.check_head(a.head)?;
        refuse_if(!well_formed(a.entry), Refusal::Entry)?;
        refuse_if(row == a.head.view, Refusal::Again)?;
        refuse_if(a.head.view < row, Refusal::OlderView)
    }

    // `filled` says whether the sender's row is.
    pub(crate) fn check_cast(&self, filled: bool, r: Row) -> Result<(), Refusal>
        ensures { result ≡ judged (own_refusals self.now ++ cast_refusals (standing self.now) filled r) }
    {
        self.check_head(Head::of(r))?;
        refuse_if(r.view != self.view, Refusal::View)?;
        refuse_if(leader(r.view, self.n) != self.seat, Refusal::Leader)?;
        refuse_if(filled, Refusal::Again)?;
        refuse_if(self.stage.0 != COLLECTING, Refusal::Stage)?;
        refuse_if(!valid(self.n, self.f, r.view, r.vote), Refusal::Vote)
    }

    pub(crate) fn check_ask(&self, q: Request, rows: Rows) -> Result<(), Refusal>
        ensures { result ≡ judged (own_refusals self.now ++ (ask_refusals (standing self.now) q ++ gathered_refusals rows self.now.n self.now.f q.head.view q.entry)) }
    {
        self.check_head(q.head)?;
        refuse_if(q.head.view != self.view, Refusal::View)?;
        refuse_if(leader(q.head.view, self.n) != q.head.seat, Refusal::Leader)?;
        refuse_if(!well_formed(q.entry), Refusal::Entry)?;
        refuse_if(q.head.view == View(1), Refusal::Stage)?;
        rows.check_request(self.n, self.f, q.head.view, q.entry)
    }

    pub(crate) fn check_confirm(&self, c: Assent) -> Result<(), Refusal>
        ensures { result ≡ judged (own_refusals self.now ++ confirm_refusals (standing self.now) self.now.confirmed self.now.chosen c) }
    {
        self.check_head(c.head)?;
        refuse_if(c.head.view != self.view, Refusal::View)?;
        refuse_if(leader(c.head.view, self.n) != self.seat, Refusal::Leader)?;
        refuse_if(!well_formed(c.entry), Refusal::Entry)?;
        refuse_if(
            mask::has(self.confirmed, c.head.seat.0 as usize),
            Refusal::Again,
        )?;
        refuse_if(self.stage.0 != ASKING, Refusal::Stage)?;
        refuse_if(c.entry != self.chosen, Refusal::OtherEntry)
    }
}
