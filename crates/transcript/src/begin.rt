// The line H, with which a trace begins.
ghost use Rattle.std.specs.Prelude.{◌≡◌, length};
ghost use Rattle.messages.specs.Writer.{lent};
ghost use Rattle.transcript.specs.Transcript.{bad_setup};
ghost use Rattle.transcript.specs.Feeding.{no_request, setup_said, resumed, begun_by, within};

use crate::State;
use crate::print::ROOM;
use base::refusal::number_of;
use entry::zero;
use messages::setup::{Setup, read_setup};
use messages::{Head, Request};
use replica::Replica;
use replica::events::margin_of;
use replica::refusals::check_setup;
use seats::{Seat, View};
use text::put::{put_byte, put_decimal};
use text::{LF, TAB};
use votes::Rows;

// 19 or setup's number, as it is printed (`bad_setup`), and where the trace then stands: of a refused setup too, so no Result.
#[derive(Clone, Copy)]
pub struct Begun {
    pub number: u8,
    pub state: State,
}

fn no_request() -> Request
    ensures { result ≡ no_request }
{
    Request {
        head: Head {
            seat: Seat(0),
            verified: false,
            view: View(0),
        },
        entry: zero(),
        count: 0,
    }
}

// What H says; zeros, which setup refuses, where it is none.
fn setup_said(read: Option<Setup>) -> Setup
    ensures { result ≡ setup_said read }
{
    read.unwrap_or(Setup {
        n: 0,
        f: Some(0),
        seat: Seat(0),
        entry: zero(),
    })
}

// Where a trace stands that begins with a replica as it is.
pub fn resume(s: Replica) -> State
    ensures { result ≡ resumed s }
{
    let setup = number_of(check_setup(s.n, s.f, s.seat, s.own));
    State {
        events: 0,
        margin: margin_of(setup, &s.acks, s.n, s.f),
        left: 0,
        spoiled: false,
        cut: false,
        request: no_request(),
        replica: s,
        rows: Rows::none(0, 0, View(0)),
    }
}

// A dash means 1.
pub fn begin(line: &[u8]) -> Begun
    ensures { result ≡ begun_by line.now }
{
    let read = read_setup(line);
    let h = setup_said(read);
    let t = Replica::setup_step(h.n, h.f.unwrap_or(1), h.seat, h.entry);
    Begun {
        number: if read.is_some() { t.number } else { 19 },
        state: resume(t.next),
    }
}

// What a bad H prints: any number, as the contract says, and so no Refusal.
pub fn put_refusal(out: &mut [u8], number: u8) -> usize
    ensures { (result ≡ length (within (length out.old) (bad_setup number))) × (out.new ≡ lent out.old (within (length out.old) (bad_setup number))) }
{
    if out.len() < ROOM {
        return 0;
    }
    put_byte(out, 0, b'0');
    put_byte(out, 1, TAB);
    let k = put_decimal(out, 2, number as u64);
    put_byte(out, 2 + k, LF);
    3 + k
}
