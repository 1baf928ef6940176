// The writer: the length first, so that a line that does not fit touches no byte; then field by field, in place.
ghost use Rattle.std.specs.Prelude.{◌≡◌, true, cond, [], ◌∷◌, ◌≤◌, ◌+◌, length};
ghost use Rattle.base.specs.Refusal.{judged};
ghost use Rattle.text.specs.Digits.{decimal, hex};
ghost use Rattle.text.specs.Fields.{tabbed};
ghost use Rattle.text.specs.Put.{Puts};
ghost use Rattle.entry.specs.Hex.{entry_text};
ghost use Rattle.messages.specs.declared.Message.TheVariants.{Propose, Acknowledge, Cast, Ask};
ghost use Rattle.messages.specs.Lines.{mark, head, vote, kind, fields, line};
ghost use Rattle.messages.specs.Writer.{seated, writable, writer_refusals, written, afterwards};

use crate::{
    ACKNOWLEDGE, ASK, Assent, CAST, CONFIRM, DASH, ENTER, Head, Message, PLUS, PROPOSE, Proposal,
    Request, START, TOP_COUNT, TOP_SEAT,
};
use base::refusal::{Refusal, refuse_if};
use entry::Entry;
use entry::hex::{DIGITS, put_text};
use text::put::{put_byte, put_decimal, put_hex, width};
use text::{LF, TAB, WORD};
use votes::{Row, Vote};

// Bounds in these contracts are there so that no sum overflows, and are wider than any field. Memory and a place go together and are no
// struct: a place comes back by value, and a cursor would carry these bounds through each field.

// ---- how long a line is
#[tactic(auto, using(text::specs::DecimalLaws::width_le))]
fn head_length(h: Head) -> usize
    ensures { (result ≡ length (tabbed (head h []))) × (result ≤ 100) }
{
    4 + width(h.seat.0 as u64) + width(h.view.0 as u64)
}

#[tactic(auto, using(text::specs::DecimalLaws::width_le))]
fn vote_length(x: Vote) -> usize
    ensures { (result ≡ length (tabbed (vote x.cast x))) × (result ≤ 200) }
{
    if !x.cast {
        return 2;
    }
    1 + width(x.view.0 as u64) + 1 + DIGITS + 1 + WORD + 2
}

#[tactic(auto, using(text::specs::DecimalLaws::width_le))]
fn line_length(m: Message) -> usize
    ensures { result ≡ length (line m) }
{
    match m {
        Message::Start => 2,
        Message::Enter(v) => 3 + width(v.0 as u64),
        Message::Propose(p) => 2 + head_length(p.head) + 1 + DIGITS + 1 + WORD,
        Message::Acknowledge(a) | Message::Confirm(a) => 2 + head_length(a.head) + 1 + DIGITS,
        Message::Cast(r) => 2 + head_length(Head::of(r)) + vote_length(r.vote),
        Message::Ask(q) => 2 + head_length(q.head) + 1 + DIGITS + 1 + width(q.count as u64),
    }
}

// ---- which message has one
fn seated(h: Head) -> bool
    ensures { result ≡ seated h }
{
    (h.seat.0 as u32) <= TOP_SEAT
}

#[tactic(auto, unfolding(crate::specs::Writer::writable))]
fn writable(m: Message) -> bool
    ensures { result ≡ writable m }
{
    match m {
        Message::Start | Message::Enter(_) => true,
        Message::Propose(p) => seated(p.head),
        Message::Acknowledge(a) | Message::Confirm(a) => seated(a.head),
        Message::Cast(r) => seated(Head::of(r)),
        Message::Ask(q) => seated(q.head) & ((q.count as u32) <= TOP_COUNT),
    }
}

// ---- a tab and a field, from `at` on; each gives the place behind it. (Four alike, of three lines: what is put differs, and over a
// closure that puts it the contract would be longer than they are. `s` and `at` are no struct, as in read.rt.)
#[tactic(auto, using(text::specs::DecimalLaws::width_le))]
fn put_number(s: &mut [u8], at: usize, x: u64) -> usize
    requires { at ≤ 1024 }
    ensures { (Puts s.old at (tabbed (decimal x ∷ [])) result s.new) × (result ≤ at + 50) }
{
    put_byte(s, at, TAB);
    let k = put_decimal(s, at + 1, x);
    at + 1 + k
}

fn mark_byte(m: bool) -> u8
    ensures { result ∷ [] ≡ mark m }
{
    if m { PLUS } else { DASH }
}

fn put_mark(s: &mut [u8], at: usize, m: bool) -> usize
    requires { at ≤ 1024 }
    ensures { (Puts s.old at (tabbed (mark m ∷ [])) result s.new) × (result ≤ at + 50) }
{
    put_byte(s, at, TAB);
    put_byte(s, at + 1, mark_byte(m));
    at + 2
}

fn put_mask(s: &mut [u8], at: usize, w: u64) -> usize
    requires { at ≤ 1024 }
    ensures { (Puts s.old at (tabbed (hex w ∷ [])) result s.new) × (result ≤ at + 50) }
{
    put_byte(s, at, TAB);
    put_hex(s, at + 1, w);
    at + 1 + WORD
}

fn put_entry(s: &mut [u8], at: usize, e: Entry) -> usize
    requires { at ≤ 1024 }
    ensures { (Puts s.old at (tabbed (entry_text e ∷ [])) result s.new) × (result ≤ at + 100) }
{
    put_byte(s, at, TAB);
    put_text(s, at + 1, e);
    at + 1 + DIGITS
}

fn put_head(s: &mut [u8], at: usize, h: Head) -> usize
    requires { at ≤ 256 }
    ensures { (Puts s.old at (tabbed (head h [])) result s.new) × (result ≤ at + 150) }
{
    let a = put_number(s, at, h.seat.0 as u64);
    let b = put_mark(s, a, h.verified);
    put_number(s, b, h.view.0 as u64)
}

fn put_vote(s: &mut [u8], at: usize, x: Vote) -> usize
    requires { at ≤ 512 }
    ensures { (Puts s.old at (tabbed (vote x.cast x)) result s.new) × (result ≤ at + 250) }
{
    if !x.cast {
        return put_mark(s, at, false);
    }
    let a = put_number(s, at, x.view.0 as u64);
    let b = put_entry(s, a, x.entry);
    let c = put_mask(s, b, x.mask);
    put_mark(s, c, x.verified)
}

// ---- all the fields of a kind, from `at` on

// Of an A, and of a C.
fn put_assent(s: &mut [u8], at: usize, x: Assent) -> usize
    requires { at ≤ 256 }
    ensures { (Puts s.old at (tabbed (fields (Acknowledge x))) result s.new) × (result ≤ at + 400) }
{
    let a = put_head(s, at, x.head);
    put_entry(s, a, x.entry)
}

fn put_proposal(s: &mut [u8], at: usize, x: Proposal) -> usize
    requires { at ≤ 256 }
    ensures { (Puts s.old at (tabbed (fields (Propose x))) result s.new) × (result ≤ at + 400) }
{
    let a = put_head(s, at, x.head);
    let b = put_entry(s, a, x.entry);
    put_mask(s, b, x.mask)
}

fn put_request(s: &mut [u8], at: usize, x: Request) -> usize
    requires { at ≤ 256 }
    ensures { (Puts s.old at (tabbed (fields (Ask x))) result s.new) × (result ≤ at + 400) }
{
    let a = put_head(s, at, x.head);
    let b = put_entry(s, a, x.entry);
    put_number(s, b, x.count as u64)
}

fn put_row(s: &mut [u8], at: usize, x: Row) -> usize
    requires { at ≤ 256 }
    ensures { (Puts s.old at (tabbed (fields (Cast x))) result s.new) × (result ≤ at + 400) }
{
    let a = put_head(s, at, Head::of(x));
    put_vote(s, a, x.vote)
}

fn put_fields(s: &mut [u8], at: usize, m: Message) -> usize
    requires { at ≤ 256 }
    ensures { (Puts s.old at (tabbed (fields m)) result s.new) × (result ≤ at + 400) }
{
    match m {
        Message::Start => at,
        Message::Enter(v) => put_number(s, at, v.0 as u64),
        Message::Propose(p) => put_proposal(s, at, p),
        Message::Acknowledge(a) | Message::Confirm(a) => put_assent(s, at, a),
        Message::Cast(r) => put_row(s, at, r),
        Message::Ask(q) => put_request(s, at, q),
    }
}

// ---- the line
fn kind_of(m: Message) -> u8
    ensures { result ≡ kind m }
{
    match m {
        Message::Start => START,
        Message::Enter(_) => ENTER,
        Message::Propose(_) => PROPOSE,
        Message::Acknowledge(_) => ACKNOWLEDGE,
        Message::Cast(_) => CAST,
        Message::Ask(_) => ASK,
        Message::Confirm(_) => CONFIRM,
    }
}

// 21 first: a message that has no line is not one whose line is too long.
fn check_line(can: bool, room: usize, n: usize) -> Result<(), Refusal>
    ensures { result ≡ judged (writer_refusals can room n) }
{
    refuse_if(!can, Refusal::Unwritable)?;
    refuse_if(room < n, Refusal::Room)
}

// The line of m at the front of buf, and how long it is. Where m has none (21), or it does not fit (20), no byte is touched.
pub fn write_line(buf: &mut [u8], m: Message) -> Result<usize, Refusal>
    ensures { (result ≡ written buf.old m) × (buf.new ≡ afterwards buf.old m) }
{
    let n = line_length(m);
    check_line(writable(m), buf.len(), n)?;
    put_byte(buf, 0, kind_of(m));
    let end = put_fields(buf, 1, m);
    put_byte(buf, end, LF);
    Ok(n)
}
