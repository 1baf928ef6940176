// The reader: field by field, each found by the one finder. A field that is missing is read as an empty one, which no reader
// of a field takes. Every kind looks at the end of the line once. A text and a place go together and are no struct: each step gives the
// place behind it by value, and a cursor that moves would have to promise where a field that is not read leaves it.
ghost use Rattle.std.specs.Prelude.{◌≡◌, ◌≤◌, IfSome};
ghost use Rattle.text.specs.Fields.{behind, end_behind};
ghost use Rattle.messages.specs.Reader.{mark_of, number_at, hex_at, letter_at, entry_at, dash_at, head_at, enter_at, assent_at};
ghost use Rattle.messages.specs.Reader.{propose_at, ask_at, row_with, nil_at, vote_at, cast_at, message_at, read_line};

use crate::{
    ACKNOWLEDGE, ASK, Assent, CAST, CONFIRM, DASH, ENTER, Head, Message, PLUS, PROPOSE, Proposal,
    Request, START, TOP_COUNT, TOP_SEAT, TOP_VIEW,
};
use entry::hex::{DIGITS, read_entry};
use entry::{Entry, zero};
use seats::{Seat, View};
use text::WORD;
use text::digits::{decimal, hex, letter};
use text::field::{field, field_of, over, place_behind};
use votes::{Row, Vote};

// ---- one field, and where it ends

// The field behind the tab at `end`, which should have k bytes.
#[tactic(auto, unfolding(text::specs::Fields::behind, text::specs::Fields::end_behind))]
fn behind(t: &[u8], end: usize, k: usize) -> (&[u8], usize)
    ensures { (result.0.now ≡ behind t.now end) × (result.1 ≡ end_behind t.now end) }
{
    let p = place_behind(t, end);
    let f = field_of(t, p, k);
    (f, p + f.len())
}

// The decimal, at most max.
pub(crate) fn number_at(t: &[u8], end: usize, max: u32) -> Option<(u64, usize)>
    ensures value { result ≡ number_at t.now end max }
    ensures small { IfSome result (λ n. n.0 ≤ max) }
{
    let (f, end) = behind(t, end, 0);
    Some((decimal(f, max)?, end))
}

fn hex_at(t: &[u8], end: usize) -> Option<(u64, usize)>
    ensures { result ≡ hex_at t.now end }
{
    let (f, end) = behind(t, end, WORD);
    Some((hex(f)?, end))
}

pub(crate) fn entry_at(t: &[u8], end: usize) -> Option<(Entry, usize)>
    ensures { result ≡ entry_at t.now end }
{
    let (f, end) = behind(t, end, DIGITS);
    Some((read_entry(f)?, end))
}

fn letter_at(t: &[u8], end: usize) -> Option<(u8, usize)>
    ensures { result ≡ letter_at t.now end }
{
    let (f, end) = behind(t, end, 0);
    Some((letter(f)?, end))
}

// Where the dash ends, if the field is one.
#[tactic(auto, unfolding(crate::specs::Reader::dash_at))]
pub(crate) fn dash_at(t: &[u8], end: usize) -> Option<usize>
    ensures { result ≡ dash_at t.now end }
{
    let (d, end) = letter_at(t, end)?;
    (d == DASH).then_some(end)
}

fn mark_of(x: u8) -> Option<bool>
    ensures { result ≡ mark_of x }
{
    match x {
        PLUS => Some(true),
        DASH => Some(false),
        _ => None,
    }
}

// ---- what stands behind the kind, and whether it is all there

// Seat, mark and view.
#[tactic(auto, unfolding(crate::specs::Reader::head_at))]
fn head_at(t: &[u8], end: usize) -> Option<(Head, usize)>
    ensures { result ≡ head_at t.now end }
{
    let (seat, end) = number_at(t, end, TOP_SEAT)?;
    let (mark, end) = letter_at(t, end)?;
    let verified = mark_of(mark)?;
    let (view, end) = number_at(t, end, TOP_VIEW)?;
    let head = Head {
        seat: Seat(seat as u8),
        verified,
        view: View(view as u32),
    };
    Some((head, end))
}

#[tactic(auto, unfolding(crate::specs::Reader::enter_at))]
fn enter_at(t: &[u8], end: usize) -> Option<Message>
    ensures { result ≡ enter_at t.now end }
{
    let (view, end) = number_at(t, end, TOP_VIEW)?;
    over(t, end).then_some(Message::Enter(View(view as u32)))
}

#[tactic(auto, unfolding(crate::specs::Reader::assent_at))]
fn assent_at(t: &[u8], end: usize) -> Option<Assent>
    ensures { result ≡ assent_at t.now end }
{
    let (head, end) = head_at(t, end)?;
    let (entry, end) = entry_at(t, end)?;
    over(t, end).then_some(Assent { head, entry })
}

#[tactic(auto, unfolding(crate::specs::Reader::propose_at))]
fn propose_at(t: &[u8], end: usize) -> Option<Message>
    ensures { result ≡ propose_at t.now end }
{
    let (head, end) = head_at(t, end)?;
    let (entry, end) = entry_at(t, end)?;
    let (mask, end) = hex_at(t, end)?;
    over(t, end).then_some(Message::Propose(Proposal { head, entry, mask }))
}

#[tactic(auto, unfolding(crate::specs::Reader::ask_at))]
fn ask_at(t: &[u8], end: usize) -> Option<Message>
    ensures { result ≡ ask_at t.now end }
{
    let (head, end) = head_at(t, end)?;
    let (entry, end) = entry_at(t, end)?;
    let (count, end) = number_at(t, end, TOP_COUNT)?;
    let request = Request {
        head,
        entry,
        count: count as u8,
    };
    over(t, end).then_some(Message::Ask(request))
}

fn row_with(h: Head, vote: Vote) -> Row
    ensures { result ≡ row_with h vote }
{
    Row {
        seat: h.seat,
        verified: h.verified,
        view: h.view,
        vote,
    }
}

// A nil vote is one dash; its unused fields are zero. (Written out, as in `fresh` of replica: a function for it is as long.)
#[tactic(auto, unfolding(crate::specs::Reader::nil_at))]
fn nil_at(t: &[u8], h: Head, end: usize) -> Option<Message>
    ensures { result ≡ nil_at t.now h end }
{
    let nil = Vote {
        entry: zero(),
        mask: 0,
        view: View(0),
        cast: false,
        verified: false,
    };
    over(t, end).then_some(Message::Cast(row_with(h, nil)))
}

// A vote that is not nil: u, entry, mask and mark.
#[tactic(auto, unfolding(crate::specs::Reader::vote_at))]
fn vote_at(t: &[u8], h: Head, end: usize) -> Option<Message>
    ensures { result ≡ vote_at t.now h end }
{
    let (view, end) = number_at(t, end, TOP_VIEW)?;
    let (entry, end) = entry_at(t, end)?;
    let (mask, end) = hex_at(t, end)?;
    let (mark, end) = letter_at(t, end)?;
    let vote = Vote {
        entry,
        mask,
        view: View(view as u32),
        cast: true,
        verified: mark_of(mark)?,
    };
    over(t, end).then_some(Message::Cast(row_with(h, vote)))
}

#[tactic(auto, unfolding(crate::specs::Reader::cast_at))]
fn cast_at(t: &[u8], end: usize) -> Option<Message>
    ensures { result ≡ cast_at t.now end }
{
    let (head, end) = head_at(t, end)?;
    match dash_at(t, end) {
        Some(end) => nil_at(t, head, end),
        None => vote_at(t, head, end),
    }
}

// ---- the line

// What stands behind the kind, or behind what may come to stand between.
#[tactic(auto, unfolding(crate::specs::Reader::message_at))]
fn message_at(t: &[u8], end: usize, kind: u8) -> Option<Message>
    ensures { result ≡ message_at t.now end kind }
{
    match kind {
        ACKNOWLEDGE => Some(Message::Acknowledge(assent_at(t, end)?)),
        CAST => cast_at(t, end),
        PROPOSE => propose_at(t, end),
        CONFIRM => Some(Message::Confirm(assent_at(t, end)?)),
        ASK => ask_at(t, end),
        ENTER => enter_at(t, end),
        START => over(t, end).then_some(Message::Start),
        _ => None,
    }
}

// The message of which this is the line, with its LF and nothing behind it.
#[tactic(auto, unfolding(crate::specs::Reader::read_line))]
pub fn read_line(line: &[u8]) -> Option<Message>
    ensures { result ≡ read_line line.now }
{
    let kind = letter(field(line, 0))?;
    message_at(line, 1, kind)
}
