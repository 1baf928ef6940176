// Votes and the selection.
#![tactic(auto)]

pub mod valid; // valid.rt: when a vote is valid; 64 votes
mod search; // search.rt: what the steps look for among the rows
mod steps; // steps.rt: the five steps over the leader's table
mod request; // request.rt: the rows of a request, those that came and those that are sent
mod gather; // gather.rt: tables of votes; the selection by itself, over rows gathered one by one
pub mod slice; // slice.rt: the selection by itself, over rows that the caller lends

use entry::Entry;
use entry::table::Entries;
use seats::{Seat, View};

// nil where it is not cast; its other fields then do not count. No Option: C keeps what stands in them and gets it back (station's
// `replica_of`, `reads_back`).
#[derive(Clone, Copy)]
pub struct Vote {
    pub entry: Entry,
    pub mask: u64,
    pub view: View,
    pub cast: bool,
    pub verified: bool,
}

// 64 votes: the flags are masks, bit k is vote k's; one array a field, as in `Acks`.
#[derive(Clone, Copy)]
pub struct Votes {
    pub cast: u64,
    pub verified: u64,
    pub entries: Entries,
    pub masks: [u64; 64],
    pub views: [u32; 64],
}

// The leader's table: vote k is seat k's, and counts where bit k is set in `filled`.
#[derive(Clone, Copy)]
pub struct VoteRows {
    pub filled: u64,
    pub votes: Votes,
}

// What a V line says, and what a request carries. Its first three are those of a Head, a type of messages, which stands on this crate.
#[derive(Clone, Copy)]
pub struct Row {
    pub seat: Seat,
    pub verified: bool,
    pub view: View,
    pub vote: Vote,
}

// Rows gathered one after the other, for n, f and the view that they are collected for. Only `none` and `add` make one.
#[derive(Clone, Copy)]
pub struct Rows {
    view: View,
    // The lowest seat that the next row may have.
    next: u32,
    n: u8,
    f: u8,
    // A row was out of order, at or above n, not marked `+`, of another view or not valid.
    broken: bool,
    table: VoteRows,
}

#[derive(Clone, Copy)]
pub enum Choice {
    Wait,
    Free,
    Forced(Entry),
}
