// One replica: what it remembers, and what an event makes of it.
#![tactic(auto)]

pub mod refusals; // refusals.rt: why setup and each event refuse
mod begin; // begin.rt: setup
mod member; // member.rt: E, P, A, Q
mod leader; // leader.rt: S, V, C
pub mod events; // events.rt: setup and the events with the margin counted: one method an event
pub mod slice; // slice.rt: Q, over rows that the caller lends

use acks::Acks;
use entry::Entry;
use messages::Message;
use seats::{Seat, View};
use votes::{Vote, VoteRows};

// Idle, collecting, asking, proposed. No enum: C hands in any byte, and `reads_back` (station) hands the same one out. So a stage is told
// by its number.
#[derive(Clone, Copy)]
pub struct Stage(pub u8);

const IDLE: u8 = 0;

const COLLECTING: u8 = 1;

const ASKING: u8 = 2;

const PROPOSED: u8 = 3;

// No table has a row for this seat: what is written there changes nothing.
const NO_SEAT: Seat = Seat(64);

// The tables stand last, and before them an entry that every event reads: so each is moved by itself, and seldom.
#[derive(Clone, Copy)]
pub struct Replica {
    pub n: u8,
    pub f: u8,
    pub seat: Seat,
    pub stage: Stage,
    // Beside the decision, and no Option: C keeps what stands in an entry that does not count, as in a nil vote.
    pub decided: bool,
    pub view: View,
    pub vote: Vote,
    pub decision: Entry,
    pub chosen: Entry,
    // The seats that confirmed the chosen entry.
    pub confirmed: u64,
    pub own: Entry,
    pub acks: Acks,
    pub votes: VoteRows,
}

// What an event makes of a replica: the next one, the number of refusal, what is decided, reported once, and what is sent: at most one
// message, the rows of a request told one by one, by `request_row`.
#[derive(Clone, Copy)]
pub struct Step {
    pub next: Replica,
    // Not by name: 01's answer has the number, 0 where taken; `start_numbers` and its like speak of it, `trace` prints it, C gets it.
    pub number: u8,
    pub decided: Option<Entry>,
    pub sent: Option<Message>,
}

#[derive(Clone, Copy)]
pub struct Reply {
    pub number: u8,
    pub decided: Option<Entry>,
    pub sent: Option<Message>,
    pub margin: i32,
}

// A step, with the margin of the replica that it hands back.
#[derive(Clone, Copy)]
pub struct Answer {
    pub next: Replica,
    pub reply: Reply,
}
