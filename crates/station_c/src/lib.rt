// The library as C sees it: each function of `station` under its own name, with the same contract. The header is
// crates/station/luscarembo.h.
#![tactic(auto)]

ghost use Rattle.std.specs.Prelude.{◌≡◌, [], ◌∷◌, length};
ghost use Rattle.votes.specs.Rows.{number_of};
ghost use Rattle.messages.specs.Writer.{lent, written, written_number, written_length, afterwards};
ghost use Rattle.station.specs.Words.{scalars_of, replica_of, message_of};
ghost use Rattle.station.specs.Calls.{setup_by, ran_by, selected_words, selected_by};

use entry::table::Entries;
use station::calls;

// The replica that setup begins, or the blank one; the answer is setup's number.
#[unsafe(no_mangle)]
pub extern "C" fn luscarembo_setup(
    n: u8,
    f: u8,
    seat: u8,
    hi: u64,
    lo: u64,
    scalars: &mut [u64; 22],
    ack_entries: &mut Entries,
    ack_views: &mut [u32; 64],
    vote_entries: &mut Entries,
    vote_masks: &mut [u64; 64],
    vote_views: &mut [u32; 64],
) -> u8
    ensures { let t = setup_by n f seat hi lo in (result ≡ t.number) × (scalars.new ≡ scalars_of t.next) × (ack_entries.new ≡ t.next.acks.entries) × (ack_views.new ≡ t.next.acks.views) × (vote_entries.new ≡ t.next.votes.votes.entries) × (vote_masks.new ≡ t.next.votes.votes.masks) × (vote_views.new ≡ t.next.votes.votes.views) }
{
    calls::luscarembo_setup(
        n,
        f,
        seat,
        hi,
        lo,
        scalars,
        ack_entries,
        ack_views,
        vote_entries,
        vote_masks,
        vote_views,
    )
}

// The events of a text: its whole lines, a Q with its rows, as `trace` takes them, numbered from 1. What `trace` prints of them
// goes to the front of `out`, as long as there is room for one more event; the answer is how many bytes that is. The replica that
// the arrays then hold is the one that `step` makes of these events, one after the other: `events_stepped` in EventLaws.antt.
#[unsafe(no_mangle)]
pub extern "C" fn luscarembo_events(
    scalars: &mut [u64; 22],
    ack_entries: &mut Entries,
    ack_views: &mut [u32; 64],
    vote_entries: &mut Entries,
    vote_masks: &mut [u64; 64],
    vote_views: &mut [u32; 64],
    text: &[u8],
    out: &mut [u8],
) -> usize
    ensures { let t = ran_by (replica_of scalars.old ack_entries.old ack_views.old vote_entries.old vote_masks.old vote_views.old) text.now (length out.old) in (result ≡ length t.text) × (scalars.new ≡ scalars_of t.state.replica) × (ack_entries.new ≡ t.state.replica.acks.entries) × (ack_views.new ≡ t.state.replica.acks.views) × (vote_entries.new ≡ t.state.replica.votes.votes.entries) × (vote_masks.new ≡ t.state.replica.votes.votes.masks) × (vote_views.new ≡ t.state.replica.votes.votes.views) × (out.new ≡ lent out.old t.text) }
{
    calls::luscarembo_events(
        scalars,
        ack_entries,
        ack_views,
        vote_entries,
        vote_masks,
        vote_views,
        text,
        out,
    )
}

// The selection by itself, over rows given as V lines: its number, and its choice.
#[unsafe(no_mangle)]
pub extern "C" fn luscarembo_select(
    n: u8,
    f: u8,
    view: u32,
    text: &[u8],
    choice: &mut [u64; 3],
) -> u8
    ensures { (result ≡ number_of (selected_by n f view text.now)) × (choice.new ≡ selected_words (selected_by n f view text.now)) }
{
    calls::luscarembo_select(n, f, view, text, choice)
}

// The line of a message, by the letter of its kind; the answer is the writer's number, and `length` how long the line is.
#[unsafe(no_mangle)]
pub extern "C" fn luscarembo_write(
    kind: u8,
    words: &[u64; 13],
    buf: &mut [u8],
    length: &mut [u64; 1],
) -> u8
    ensures { let m = message_of kind words.now in (result ≡ written_number (written buf.old m)) × (buf.new ≡ afterwards buf.old m) × (length.new ≡ written_length (written buf.old m) ∷ []) }
{
    calls::luscarembo_write(kind, words, buf, length)
}
