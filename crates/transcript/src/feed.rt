// The events of a piece of the input, line by line.
ghost use Rattle.std.specs.Prelude.{◌≡◌, length};
ghost use Rattle.messages.specs.Writer.{lent};
ghost use Rattle.transcript.specs.Texts.{lines_of};
ghost use Rattle.transcript.specs.Feeding.{next_event, ran, fed_of};

use crate::State;
use crate::lines::behind_line;
use crate::print::{ROOM, asks, put_event, put_rows};
use crate::sort::{Event, read_unless, sort};
use messages::Message;
use replica::events::margin_of;
use votes::Rows;

// How much of the input was used, how much output was put, and where the trace then stands.
#[derive(Clone, Copy)]
pub struct Fed {
    pub used: usize,
    pub put: usize,
    pub state: State,
}

pub(crate) fn next_event(k: u64) -> u64
    ensures { result ≡ next_event k }
{
    k.saturating_add(1)
}

// As many whole lines as there are, while an event has room in `out`. Each event is an arm of its own that stores the next
// replica: then no arm copies a table that it does not change. For the same reason a state is taken apart and put together again, and what
// is answered is four values, each set where it is made. 19 is `Refusal::Line`.
pub fn feed(state: State, s: &[u8], out: &mut [u8]) -> Fed
    ensures { (result ≡ fed_of (ran state (lines_of s.now) (length out.old))) × (out.new ≡ lent out.old (ran state (lines_of s.now) (length out.old)).text) }
{
    let mut replica = state.replica;
    let mut rows = state.rows;
    let mut request = state.request;
    let mut margin = state.margin;
    let mut events = state.events;
    let mut left = state.left;
    let mut spoiled = state.spoiled;
    let mut cut = state.cut;
    let mut at: usize = 0;
    let mut put: usize = 0;
    while put + ROOM <= out.len() {
        let Some(end) = behind_line(s, at) else {
            break;
        };
        let line = read_unless(cut, &s[at..end]);
        let sorted = sort(line, left, spoiled);
        let event = sorted.event;
        left = sorted.left;
        spoiled = sorted.spoiled;
        cut = false;
        at = end;
        match event {
            Event::Row(row) => {
                rows = rows.add(row);
            }
            Event::Opened(q) => {
                request = q;
                rows = Rows::none(replica.n, replica.f, q.head.view);
            }
            _ => {}
        }
        if 0 < left {
            continue;
        }
        let mut number: u8 = 19;
        let mut decided = None;
        let mut sent = None;
        match event {
            Event::Unread => {}
            Event::Heard(m) => match m {
                Message::Acknowledge(a) => {
                    let t = replica.acknowledge_step(a);
                    replica = t.next;
                    number = t.number;
                    decided = t.decided;
                    if number == 0 {
                        margin = margin_of(0, &replica.acks, replica.n, replica.f);
                    }
                }
                Message::Cast(r) => {
                    let t = replica.cast_step(r);
                    replica = t.next;
                    number = t.number;
                    sent = t.sent;
                }
                Message::Propose(p) => {
                    let t = replica.propose_step(p);
                    replica = t.next;
                    number = t.number;
                    sent = t.sent;
                }
                Message::Confirm(c) => {
                    let t = replica.confirm_step(c);
                    replica = t.next;
                    number = t.number;
                    sent = t.sent;
                }
                Message::Enter(v) => {
                    let t = replica.enter_step(v);
                    replica = t.next;
                    number = t.number;
                    sent = t.sent;
                }
                Message::Start => {
                    let t = replica.start_step();
                    replica = t.next;
                    number = t.number;
                    sent = t.sent;
                }
                // Sorted as `Opened`: never here.
                Message::Ask(_) => {}
            },
            // The last row of a request, or a request with none: its rows are all there.
            _ => {
                let t = replica.ask_step(request, rows);
                replica = t.next;
                number = t.number;
                sent = t.sent;
            }
        }
        events = next_event(events);
        put = put_event(out, put, events, number, decided, margin, sent);
        if asks(sent) {
            put = put_rows(out, put, &replica.votes, replica.n, replica.f, replica.view);
        }
    }
    Fed {
        used: at,
        put,
        state: State {
            events,
            margin,
            left,
            spoiled,
            cut,
            request,
            replica,
            rows,
        },
    }
}
