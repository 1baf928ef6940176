// What a leader does: S, V, C.
ghost use Rattle.std.specs.Prelude.{◌≡◌, cond, leb};
ghost use Rattle.seats.specs.Seats.{count};
ghost use Rattle.votes.specs.Rows.{has_row};
ghost use Rattle.replica.specs.Choices.{asked_for};
ghost use Rattle.replica.specs.Steps.{start_step, cast_step, confirm_step};

use crate::{ASKING, NO_SEAT, PROPOSED, Replica, Stage, Step};
use base::pick;
use base::refusal::number_of;
use entry::Entry;
use messages::{Assent, Message, Proposal, Request};
use seats::{View, mask};
use votes::{Choice, Row, VoteRows};

// The entry that a leader asks for, where the selection no longer waits.
fn asked_for(c: Choice, own: Entry) -> Option<Entry>
    ensures { result ≡ asked_for c own }
{
    match c {
        Choice::Wait => None,
        Choice::Free => Some(own),
        Choice::Forced(e) => Some(e),
    }
}

// How many rows a request has.
fn rows_counted(votes: &VoteRows, n: u8, f: u8, v: View) -> u8
    ensures { result ≡ cond (leb n 64) (count (has_row n f v votes.now) n) 0 }
{
    mask::seats_in(votes.rows_held(n, f, v)) as u8
}

impl Replica {
    pub fn start_step(self) -> Step
        ensures { result ≡ start_step self }
    {
        let number = number_of(self.check_start());
        let taken = number == 0;
        let told = Proposal {
            head: self.head(self.view),
            entry: self.own,
            mask: 0,
        };
        Step {
            next: Replica {
                stage: pick(taken, Stage(PROPOSED), self.stage),
                ..self
            },
            number,
            decided: None,
            sent: taken.then_some(Message::Propose(told)),
        }
    }

    pub fn cast_step(self, r: Row) -> Step
        ensures { result ≡ cast_step self r }
    {
        // The table is read and written by itself, as in `acknowledge_step`.
        let mut votes = self.votes;
        let held = votes.row_held(self.n, self.f, self.view, r.seat);
        let number = number_of(self.check_cast(held, r));
        let taken = number == 0;
        votes.put(pick(taken, r.seat, NO_SEAT), r.vote);
        // The rows are looked at only where a vote was taken, and counted only where a request goes out.
        let choice = if taken {
            votes
                .choose_among(self.n, self.f, self.view)
                .unwrap_or(Choice::Wait)
        } else {
            Choice::Wait
        };
        let asked = asked_for(choice, self.own);
        let asks = asked.is_some();
        let count = if asks {
            rows_counted(&votes, self.n, self.f, self.view)
        } else {
            0
        };
        let chosen = asked.unwrap_or(self.chosen);
        let told = Request {
            head: self.head(self.view),
            entry: chosen,
            count,
        };
        Step {
            next: Replica {
                stage: pick(asks, Stage(ASKING), self.stage),
                chosen,
                votes,
                ..self
            },
            number,
            decided: None,
            sent: asks.then_some(Message::Ask(told)),
        }
    }

    pub fn confirm_step(self, c: Assent) -> Step
        ensures { result ≡ confirm_step self c }
    {
        let number = number_of(self.check_confirm(c));
        let taken = number == 0;
        let confirmed = mask::with_seat(self.confirmed, pick(taken, c.head.seat, NO_SEAT));
        let counted = mask::below(self.n) & confirmed;
        let enough = taken & (u32::from(self.f) + 1 <= mask::seats_in(counted));
        let told = Proposal {
            head: self.head(self.view),
            entry: self.chosen,
            mask: counted,
        };
        Step {
            next: Replica {
                stage: pick(enough, Stage(PROPOSED), self.stage),
                confirmed,
                ..self
            },
            number,
            decided: None,
            sent: enough.then_some(Message::Propose(told)),
        }
    }
}
