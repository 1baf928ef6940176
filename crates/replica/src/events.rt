// Setup and the events, each answered with the margin of the replica that it hands back.
ghost use Rattle.std.specs.Prelude.{◌≡◌, cond, eqb, pos};
ghost use Rattle.acks.specs.Acks.{row_of, margin};
ghost use Rattle.replica.specs.Steps.{answer_of, setup_step, start_step, enter_step, propose_step, acknowledge_step, cast_step, ask_with, confirm_step};

use crate::{Answer, Replica, Reply, Step};
use acks::Acks;
use base::refusal::number_of;
use entry::Entry;
use messages::{Assent, Proposal, Request};
use seats::{Seat, View};
use votes::{Row, Rows};

// The margin of rows, 0 where setup has a number for the replica: any number, so no Refusal. The rows by themselves: a replica that is handed
// on is moved whole.
pub fn margin_of(setup: u8, acks: &Acks, n: u8, f: u8) -> i32
    ensures { result ≡ cond (eqb setup 0) (margin n f (row_of acks.now)) (pos 0) }
{
    if setup == 0 { acks.margin(n, f) } else { 0 }
}

impl Step {
    pub fn answer(self) -> Answer
        ensures { result ≡ answer_of self }
    {
        let margin = margin_of(
            number_of(self.next.check_own()),
            &self.next.acks,
            self.next.n,
            self.next.f,
        );
        Answer {
            next: self.next,
            reply: Reply {
                number: self.number,
                decided: self.decided,
                sent: self.sent,
                margin,
            },
        }
    }
}

impl Replica {
    pub fn setup(n: u8, f: u8, s: Seat, own: Entry) -> Answer
        ensures { result ≡ answer_of (setup_step n f s own) }
    {
        Replica::setup_step(n, f, s, own).answer()
    }

    // S
    pub fn start(self) -> Answer
        ensures { result ≡ answer_of (start_step self) }
    {
        self.start_step().answer()
    }

    // E
    pub fn enter(self, v: View) -> Answer
        ensures { result ≡ answer_of (enter_step self v) }
    {
        self.enter_step(v).answer()
    }

    // P
    pub fn propose(self, p: Proposal) -> Answer
        ensures { result ≡ answer_of (propose_step self p) }
    {
        self.propose_step(p).answer()
    }

    // A
    pub fn acknowledge(self, a: Assent) -> Answer
        ensures { result ≡ answer_of (acknowledge_step self a) }
    {
        self.acknowledge_step(a).answer()
    }

    // V
    pub fn cast(self, r: Row) -> Answer
        ensures { result ≡ answer_of (cast_step self r) }
    {
        self.cast_step(r).answer()
    }

    // Q
    pub fn ask(self, q: Request, rows: Rows) -> Answer
        ensures { result ≡ answer_of (ask_with self q rows) }
    {
        self.ask_step(q, rows).answer()
    }

    // C
    pub fn confirm(self, c: Assent) -> Answer
        ensures { result ≡ answer_of (confirm_step self c) }
    {
        self.confirm_step(c).answer()
    }
}
