// The lines printed. What has no room is not put: the room is looked at before an event is printed.
ghost use Rattle.std.specs.Prelude.{◌≡◌, true, [], ◌∷◌, ◌++◌, ◌+◌, ◌≤◌, length};
ghost use Rattle.text.specs.Digits.{decimal};
ghost use Rattle.text.specs.Fields.{tab};
ghost use Rattle.text.specs.Put.{Puts};
ghost use Rattle.votes.specs.Request.{row_list, rows_sent};
ghost use Rattle.messages.specs.Lines.{line};
ghost use Rattle.messages.specs.Writer.{writable};
ghost use Rattle.transcript.specs.Printed.{decided_text, signed, sent_text, row_lines, event_line, SentWritable, RowWritable, sends_ask};
ghost use Rattle.transcript.specs.Rooms.{decided_room, line_room, event_line_room, rows_room};

use entry::Entry;
use entry::hex::{DIGITS, put_text};
use messages::Message;
use messages::write::write_line;
use seats::{Seat, View, mask};
use text::put::{put_byte, put_decimal};
use text::{LF, TAB};
use votes::{Row, VoteRows};

// A field of the output that has nothing; a line's dash is a mark and stands in messages.
const DASH: u8 = b'-';

// What one event prints at most: its line, and 64 rows.
pub(crate) const ROOM: usize = 6000;

// Each of these puts a field and a tab, and answers the place behind them. The place goes by value: a cursor would have to promise where it
// then stands, which is what the answer says.
fn put_number(s: &mut [u8], at: usize, v: u64) -> usize
    requires { at + 21 ≤ length s.old }
    ensures { (Puts s.old at (decimal v ++ (tab ∷ [])) result s.new) × (result ≤ at + 21) }
{
    let k = put_decimal(s, at, v);
    put_byte(s, at + k, TAB);
    at + k + 1
}

fn put_decided(s: &mut [u8], at: usize, d: Option<Entry>) -> usize
    requires { at + decided_room ≤ length s.old }
    ensures { (Puts s.old at (decided_text d ++ (tab ∷ [])) result s.new) × (result ≤ at + decided_room) }
{
    match d {
        None => {
            put_byte(s, at, DASH);
            put_byte(s, at + 1, TAB);
            at + 2
        }
        Some(e) => {
            put_text(s, at, e);
            put_byte(s, at + DIGITS, TAB);
            at + DIGITS + 1
        }
    }
}

fn put_signed(s: &mut [u8], at: usize, m: i32) -> usize
    requires { at + 22 ≤ length s.old }
    ensures { (Puts s.old at (signed m ++ (tab ∷ [])) result s.new) × (result ≤ at + 22) }
{
    if m < 0 {
        put_byte(s, at, DASH);
        return put_number(s, at + 1, u64::from(m.unsigned_abs()));
    }
    put_number(s, at, m as u64)
}

fn put_message(s: &mut [u8], at: usize, m: Message) -> usize
    requires { (writable m ≡ true) × (at + line_room ≤ length s.old) }
    ensures { (Puts s.old at (line m) result s.new) × (result ≤ at + line_room) }
{
    at + write_line(&mut s[at..], m).unwrap_or(0)
}

fn put_sent(s: &mut [u8], at: usize, x: Option<Message>) -> usize
    requires { SentWritable x × (at + line_room ≤ length s.old) }
    ensures { (Puts s.old at (sent_text x) result s.new) × (result ≤ at + line_room) }
{
    match x {
        None => {
            put_byte(s, at, DASH);
            put_byte(s, at + 1, LF);
            at + 2
        }
        Some(m) => put_message(s, at, m),
    }
}

// The number is what is printed.
pub(crate) fn put_event(
    s: &mut [u8],
    at: usize,
    k: u64,
    number: u8,
    d: Option<Entry>,
    margin: i32,
    x: Option<Message>,
) -> usize
    requires { SentWritable x × (at + event_line_room ≤ length s.old) }
    ensures { (Puts s.old at (event_line k number d margin x) result s.new) × (result ≤ at + event_line_room) }
{
    let a = put_number(s, at, k);
    let b = put_number(s, a, number as u64);
    let c = put_decided(s, b, d);
    let e = put_signed(s, c, margin);
    put_sent(s, e, x)
}

pub(crate) fn asks(x: Option<Message>) -> bool
    ensures { result ≡ sends_ask x }
{
    matches!(x, Some(Message::Ask(_)))
}

fn put_row(s: &mut [u8], at: usize, row: Option<Row>) -> usize
    requires { RowWritable row × (at + line_room ≤ length s.old) }
    ensures { Puts s.old at (row_lines (row_list row [])) result s.new }
{
    match row {
        None => at,
        Some(r) => put_message(s, at, Message::Cast(r)),
    }
}

// The rows of a request that goes out, in seat order.
pub(crate) fn put_rows(s: &mut [u8], at: usize, rows: &VoteRows, n: u8, f: u8, v: View) -> usize
    requires { (n ≤ 64) × (at + rows_room + line_room ≤ length s.old) }
    ensures { (Puts s.old at (row_lines (rows_sent n f v rows.now)) result s.new) × (result ≤ at + rows_room) }
{
    let mut p = at;
    for k in 0..mask::rows_of(n) {
        let r = rows.request_row(n, f, v, Seat(k as u8));
        p = put_row(s, p, r);
    }
    p
}
