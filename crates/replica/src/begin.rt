// Setup: the first replica, or the blank one.
ghost use Rattle.std.specs.Prelude.{◌≡◌};
ghost use Rattle.replica.specs.Replica.{fresh, blank};
ghost use Rattle.replica.specs.Steps.{setup_step};

use crate::refusals::check_setup;
use crate::{IDLE, Replica, Stage, Step};
use acks::Acks;
use base::refusal::number_of;
use entry::{Entry, zero};
use seats::{Seat, View};
use votes::{Vote, VoteRows};

fn fresh(n: u8, f: u8, s: Seat, own: Entry) -> Replica
    ensures { result ≡ fresh n f s own }
{
    Replica {
        n,
        f,
        seat: s,
        stage: Stage(IDLE),
        decided: false,
        view: View(1),
        own,
        vote: Vote {
            entry: zero(),
            mask: 0,
            view: View(0),
            cast: false,
            verified: false,
        },
        decision: zero(),
        chosen: zero(),
        confirmed: 0,
        acks: Acks::none(),
        votes: VoteRows::none(),
    }
}

// The fresh replica of nobody, before its first view.
fn blank() -> Replica
    ensures { result ≡ blank }
{
    Replica {
        view: View(0),
        ..fresh(0, 0, Seat(0), zero())
    }
}

impl Replica {
    // Four values and no struct: C hands them in one by one (`luscarembo_setup`).
    pub fn setup_step(n: u8, f: u8, s: Seat, own: Entry) -> Step
        ensures { result ≡ setup_step n f s own }
    {
        let number = number_of(check_setup(n, f, s, own));
        Step {
            next: if number == 0 {
                fresh(n, f, s, own)
            } else {
                blank()
            },
            number,
            decided: None,
            sent: None,
        }
    }
}
