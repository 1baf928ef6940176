// What a line is to the replica, beside a request that may be waiting for its rows. A match within a match, and no pattern within a pattern:
// of that the arm `_` tells the proof nothing (tried).
ghost use Rattle.std.specs.Prelude.{◌≡◌};
ghost use Rattle.transcript.specs.Feeding.{read_unless, spoiled_row, sorted_row, sorted_line, sorted};

use messages::read::read_line;
use messages::{Message, Request};
use votes::Row;

#[derive(Clone, Copy)]
pub(crate) enum Event {
    // 19, or a row that is none
    Unread,
    Heard(Message),
    // A row of the request that is waiting
    Row(Row),
    // A request, whose rows come behind it
    Opened(Request),
}

// The event, and what is then left to come of a request's rows.
#[derive(Clone, Copy)]
pub(crate) struct Sorted {
    pub event: Event,
    pub left: u8,
    pub spoiled: bool,
}

// A line whose front was dropped is too long to be any.
pub(crate) fn read_unless(cut: bool, line: &[u8]) -> Option<Message>
    ensures { result ≡ read_unless cut line.now }
{
    if cut { None } else { read_line(line) }
}

fn spoiled_row(left: u8) -> Sorted
    ensures { result ≡ spoiled_row left }
{
    Sorted {
        event: Event::Unread,
        left,
        spoiled: true,
    }
}

// `left` is what is left behind this line.
fn sort_row(l: Option<Message>, left: u8, spoiled: bool) -> Sorted
    ensures { result ≡ sorted_row l left spoiled }
{
    if spoiled {
        return spoiled_row(left);
    }
    match l {
        None => spoiled_row(left),
        Some(m) => match m {
            Message::Cast(r) => Sorted {
                event: Event::Row(r),
                left,
                spoiled: false,
            },
            _ => spoiled_row(left),
        },
    }
}

fn sort_line(l: Option<Message>) -> Sorted
    ensures { result ≡ sorted_line l }
{
    match l {
        None => Sorted {
            event: Event::Unread,
            left: 0,
            spoiled: false,
        },
        Some(m) => match m {
            Message::Ask(q) => Sorted {
                event: Event::Opened(q),
                left: q.count,
                spoiled: false,
            },
            _ => Sorted {
                event: Event::Heard(m),
                left: 0,
                spoiled: false,
            },
        },
    }
}

pub(crate) fn sort(l: Option<Message>, left: u8, spoiled: bool) -> Sorted
    ensures { result ≡ sorted l left spoiled }
{
    if 0 < left {
        sort_row(l, left - 1, spoiled)
    } else {
        sort_line(l)
    }
}
