// The messages and events, and their lines.
#![tactic(auto)]

ghost use Rattle.std.specs.Prelude.{◌≡◌};
ghost use Rattle.messages.specs.Lines.{row_head};

pub mod read; // read.rt: the message of a line
pub mod write; // write.rt: the line of a message
pub mod setup; // setup.rt: the line H, which opens a trace

use entry::Entry;
use seats::{Seat, View};
use votes::Row;

// Who says it, the mark on it, and the view it speaks of: what every message begins with.
#[derive(Clone, Copy)]
pub struct Head {
    pub seat: Seat,
    pub verified: bool,
    pub view: View,
}

impl Head {
    // What a row begins with. No From: that would say the answer in a ghost member of its own, and no contract would stand here.
    pub fn of(r: Row) -> Head
        ensures { result ≡ row_head r }
    {
        Head {
            seat: r.seat,
            verified: r.verified,
            view: r.view,
        }
    }
}

// What A and C say: yes to this entry, in this view.
#[derive(Clone, Copy)]
pub struct Assent {
    pub head: Head,
    pub entry: Entry,
}

#[derive(Clone, Copy)]
pub struct Proposal {
    pub head: Head,
    pub entry: Entry,
    pub mask: u64,
}

// A request without its rows: count says how many V lines follow it.
#[derive(Clone, Copy)]
pub struct Request {
    pub head: Head,
    pub entry: Entry,
    pub count: u8,
}

// S, E, P, A, V, Q, C.
#[derive(Clone, Copy)]
pub enum Message {
    Start,
    Enter(View),
    Propose(Proposal),
    Acknowledge(Assent),
    Cast(Row),
    Ask(Request),
    Confirm(Assent),
}

// The first field of a line.
const START: u8 = b'S';

const ENTER: u8 = b'E';

const PROPOSE: u8 = b'P';

const ACKNOWLEDGE: u8 = b'A';

const CAST: u8 = b'V';

const ASK: u8 = b'Q';

const CONFIRM: u8 = b'C';

// Marks; the second also stands for a nil vote, and for an f that is left out.
const PLUS: u8 = b'+';

const DASH: u8 = b'-';

// The largest numbers that a line can hold; the second is for n, f and seat of an H.
const TOP_SEAT: u32 = 99;

const TOP_SETUP: u32 = 99;

const TOP_COUNT: u32 = 64;

const TOP_VIEW: u32 = 4294967295;
