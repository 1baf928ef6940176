// What every seat does: E, P, A, Q. The number comes first. What is taken is then written, and what is refused is written
// past the table or chosen away, so that no way through an event copies a table. The number is handed back besides, so whether an event
// is taken is read off it.
ghost use Rattle.std.specs.Prelude.{◌≡◌};
ghost use Rattle.replica.specs.Steps.{head_of, enter_step, propose_step, acknowledge_step, ask_with};

use crate::{COLLECTING, IDLE, NO_SEAT, Replica, Stage, Step};
use acks::AckRow;
use base::pick;
use base::refusal::number_of;
use messages::{Assent, Head, Message, Proposal, Request};
use seats::{View, mask, sizes};
use votes::{Row, Rows, Vote, VoteRows};

impl Replica {
    // Messages go out with mark `+`.
    pub(crate) fn head(&self, v: View) -> Head
        ensures { result ≡ head_of self.now v }
    {
        Head {
            seat: self.seat,
            verified: true,
            view: v,
        }
    }

    pub fn enter_step(self, v: View) -> Step
        ensures { result ≡ enter_step self v }
    {
        let number = number_of(self.check_enter(v));
        let taken = number == 0;
        let ballot = Row {
            seat: self.seat,
            verified: true,
            view: v,
            vote: self.vote,
        };
        let then = pick(seats::leader(v, self.n) == self.seat, COLLECTING, IDLE);
        Step {
            next: Replica {
                view: pick(taken, v, self.view),
                stage: pick(taken, Stage(then), self.stage),
                chosen: pick(taken, entry::zero(), self.chosen),
                confirmed: pick(taken, 0, self.confirmed),
                votes: pick(taken, VoteRows::none(), self.votes),
                ..self
            },
            number,
            decided: None,
            sent: taken.then_some(Message::Cast(ballot)),
        }
    }

    pub fn propose_step(self, p: Proposal) -> Step
        ensures { result ≡ propose_step self p }
    {
        let number = number_of(self.check_propose(p));
        let taken = number == 0;
        let vote = Vote {
            entry: p.entry,
            mask: p.mask,
            view: p.head.view,
            cast: true,
            verified: p.head.verified,
        };
        let told = Assent {
            head: self.head(p.head.view),
            entry: p.entry,
        };
        Step {
            next: Replica {
                vote: pick(taken, vote, self.vote),
                ..self
            },
            number,
            decided: None,
            sent: taken.then_some(Message::Acknowledge(told)),
        }
    }

    pub fn acknowledge_step(self, a: Assent) -> Step
        ensures { result ≡ acknowledge_step self a }
    {
        // The table is read and written by itself: read or written inside the replica, all of the replica is copied.
        let mut acks = self.acks;
        let held = acks.row_of(a.head.seat.0 as usize);
        let number = number_of(self.check_acknowledge(held.view, a));
        let taken = number == 0;
        let row = AckRow {
            view: a.head.view,
            entry: a.entry,
        };
        acks.put(pick(taken, a.head.seat, NO_SEAT), row);
        // The rows are looked at only where a decision may come of it.
        let open = taken & !self.decided;
        let shared = if open { acks.sharers(self.n, row) } else { 0 };
        let decides = open & (sizes::quorum(self.n, self.f) <= mask::seats_in(shared));
        Step {
            next: Replica {
                decided: self.decided | decides,
                decision: pick(decides, a.entry, self.decision),
                acks,
                ..self
            },
            number,
            decided: decides.then_some(a.entry),
            sent: None,
        }
    }

    // The rows are those that the request came with, gathered for this replica's n and f and the request's view.
    pub fn ask_step(self, q: Request, rows: Rows) -> Step
        ensures { result ≡ ask_with self q rows }
    {
        let number = number_of(self.check_ask(q, rows));
        let told = Assent {
            head: self.head(q.head.view),
            entry: q.entry,
        };
        Step {
            next: self,
            number,
            decided: None,
            sent: (number == 0).then_some(Message::Confirm(told)),
        }
    }
}
