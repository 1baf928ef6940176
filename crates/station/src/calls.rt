// The functions of the library. C calls them by way of the crate station_c, which exports each with the same signature and clauses, as a
// crate is a library or exports for C: so arrays, kinds and numbers of refusal come and go one by one, as luscarembo.h has them.
ghost use Rattle.std.specs.Prelude.{◌≡◌, [], ◌∷◌, length};
ghost use Rattle.votes.specs.Rows.{number_of, gathered};
ghost use Rattle.messages.specs.Writer.{lent, written, written_number, written_length, afterwards};
ghost use Rattle.transcript.specs.Texts.{lines_of};
ghost use Rattle.station.specs.Words.{scalars_of, replica_of, message_of};
ghost use Rattle.station.specs.Calls.{setup_by, ran_by, choice_words, rows_of, selected_words, selected_by};

use crate::words::{Arrays, Scalars, Words, message_of};
use base::refusal::number_of;
use entry::Entry;
use entry::table::Entries;
use messages::Message;
use messages::read::read_line;
use messages::write::write_line;
use replica::Replica;
use seats::{Seat, View};
use transcript::begin::resume;
use transcript::feed::feed;
use transcript::lines::end_of_line;
use votes::{Choice, Rows};

// The replica that setup begins, or the blank one; the answer is setup's number.
pub fn luscarembo_setup(
    n: u8,
    f: u8,
    seat: u8,
    hi: u64,
    lo: u64,
    scalars: &mut Scalars,
    ack_entries: &mut Entries,
    ack_views: &mut [u32; 64],
    vote_entries: &mut Entries,
    vote_masks: &mut [u64; 64],
    vote_views: &mut [u32; 64],
) -> u8
    ensures { let t = setup_by n f seat hi lo in (result ≡ t.number) × (scalars.new ≡ scalars_of t.next) × (ack_entries.new ≡ t.next.acks.entries) × (ack_views.new ≡ t.next.acks.views) × (vote_entries.new ≡ t.next.votes.votes.entries) × (vote_masks.new ≡ t.next.votes.votes.masks) × (vote_views.new ≡ t.next.votes.votes.views) }
{
    let t = Replica::setup_step(n, f, Seat(seat), Entry { hi, lo });
    let kept = Arrays {
        scalars,
        ack_entries,
        ack_views,
        vote_entries,
        vote_masks,
        vote_views,
    };
    kept.keep(t.next);
    t.number
}

// The events of a text: its whole lines, a Q with its rows, as `trace` takes them, numbered from 1. What `trace` prints of them
// goes to the front of `out`, as long as there is room for one more event; the answer is how many bytes that is. The replica that
// the arrays then hold is the one that `step` makes of these events, one after the other: `events_stepped` in EventLaws.antt.
pub fn luscarembo_events(
    scalars: &mut Scalars,
    ack_entries: &mut Entries,
    ack_views: &mut [u32; 64],
    vote_entries: &mut Entries,
    vote_masks: &mut [u64; 64],
    vote_views: &mut [u32; 64],
    text: &[u8],
    out: &mut [u8],
) -> usize
    ensures { let t = ran_by (replica_of scalars.old ack_entries.old ack_views.old vote_entries.old vote_masks.old vote_views.old) text.now (length out.old) in (result ≡ length t.text) × (scalars.new ≡ scalars_of t.state.replica) × (ack_entries.new ≡ t.state.replica.acks.entries) × (ack_views.new ≡ t.state.replica.acks.views) × (vote_entries.new ≡ t.state.replica.votes.votes.entries) × (vote_masks.new ≡ t.state.replica.votes.votes.masks) × (vote_views.new ≡ t.state.replica.votes.votes.views) × (out.new ≡ lent out.old t.text) }
{
    let kept = Arrays {
        scalars,
        ack_entries,
        ack_views,
        vote_entries,
        vote_masks,
        vote_views,
    };
    let r = kept.replica();
    let fed = feed(resume(r), text, out);
    let next = fed.state.replica();
    kept.keep(next);
    fed.put
}

// 0 wait, 1 free, 2 forced and the entry: as C reads them (luscarembo.h).
fn choice_words(c: Choice) -> [u64; 3]
    ensures { result ≡ choice_words c }
{
    match c {
        Choice::Wait => [0, 0, 0],
        Choice::Free => [1, 0, 0],
        Choice::Forced(e) => [2, e.hi, e.lo],
    }
}

// Rows given as V lines. A line that is none ends them. (A match within a match, as in sort.rt of transcript.)
fn gather(rows: Rows, text: &[u8]) -> Rows
    ensures { result ≡ gathered rows (rows_of (lines_of text.now)) }
{
    let mut t = rows;
    let mut at: usize = 0;
    while let Some(end) = end_of_line(text, at) {
        match read_line(&text[at..end]) {
            None => return t,
            Some(m) => match m {
                Message::Cast(r) => t = t.add(r),
                _ => return t,
            },
        }
        at = end;
    }
    t
}

// The selection by itself, over rows given as V lines: its number, and its choice.
pub fn luscarembo_select(n: u8, f: u8, view: u32, text: &[u8], choice: &mut [u64; 3]) -> u8
    ensures { (result ≡ number_of (selected_by n f view text.now)) × (choice.new ≡ selected_words (selected_by n f view text.now)) }
{
    let rows = gather(Rows::none(n, f, View(view)), text);
    match rows.select() {
        Err(why) => {
            *choice = [0, 0, 0];
            number_of(Err(why))
        }
        Ok(c) => {
            *choice = choice_words(c);
            0
        }
    }
}

// The line of a message, by the letter of its kind; the answer is the writer's number, and `length` how long the line is.
pub fn luscarembo_write(kind: u8, words: &Words, buf: &mut [u8], length: &mut [u64; 1]) -> u8
    ensures { let m = message_of kind words.now in (result ≡ written_number (written buf.old m)) × (buf.new ≡ afterwards buf.old m) × (length.new ≡ written_length (written buf.old m) ∷ []) }
{
    match write_line(buf, message_of(kind, words)) {
        Err(why) => {
            *length = [0];
            number_of(Err(why))
        }
        Ok(n) => {
            *length = [n as u64];
            0
        }
    }
}
