// A table of 64 entries, one a seat, as one array of words: whoever keeps entries by seat never sees how wide an entry is.
ghost use Rattle.std.specs.Prelude.{◌≡◌, replicate};
ghost use Rattle.entry.specs.Table.{table_words, entry_at, with_entry};

use crate::{Entry, zero};

// Seats of a table, and the words that they take.
pub const SEATS: usize = 64;

const WORDS: usize = 2 * SEATS;

// Words, and not `[Entry; 64]`: C keeps a table as `uint64_t [128]` and lends it as it is (`ack_entries`, `vote_entries`).
pub type Entries = [u64; WORDS];

pub fn no_entries() -> Entries
    ensures { result ≡ replicate table_words 0 }
{
    [0; WORDS]
}

#[tactic(auto, unfolding(crate::specs::Table::entry_at))]
pub fn entry_at(t: &Entries, k: usize) -> Entry
    ensures { result ≡ entry_at t.now k }
{
    if k < SEATS {
        Entry {
            hi: t[2 * k],
            lo: t[2 * k + 1],
        }
    } else {
        zero()
    }
}

#[tactic(auto, unfolding(crate::specs::Table::with_entry))]
pub fn put_entry(t: &mut Entries, k: usize, e: Entry)
    ensures { t.new ≡ with_entry t.old k e }
{
    if k < SEATS {
        t[2 * k] = e.hi;
        t[2 * k + 1] = e.lo;
    }
}
