// What `trace` does with text: lines go in, and lines come out.
#![tactic(auto)]

ghost use Rattle.std.specs.Prelude.{◌≡◌};

pub mod lines; // lines.rt: where a line ends
mod sort; // sort.rt: what a line is, beside a request that waits for its rows
mod print; // print.rt: the lines printed
pub mod begin; // begin.rt: the line H
pub mod feed; // feed.rt: the events of a piece of the input
pub mod finish; // finish.rt: a line that is too long; the end of the input

use messages::Request;
use replica::Replica;
use votes::Rows;

// Where a trace stands between two lines. Only `begin` and `resume` make one, so that its margin was counted.
#[derive(Clone, Copy)]
pub struct State {
    // How many events were printed.
    events: u64,
    // The margin of the replica, counted again only where its rows changed.
    margin: i32,
    // Rows of the request that are still to come; whether one that came was none. No Option of a request: its rows would be moved with it.
    left: u8,
    spoiled: bool,
    // The front of the line that is being read was dropped: it is too long to be any.
    cut: bool,
    request: Request,
    replica: Replica,
    rows: Rows,
}

impl State {
    // The replica is handed out, and none can be put in: its margin would not be counted.
    pub fn replica(self) -> Replica
        ensures { result ≡ self.replica }
    {
        self.replica
    }
}
