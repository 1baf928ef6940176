// The 16-byte entry, held as two big-endian words.
#![tactic(auto)]

ghost use Rattle.std.specs.Prelude.{◌≡◌};
ghost use Rattle.entry.specs.Entry.{zero_entry, word_bytes, bytes_of, stretched, same, less, well_formed};

pub mod table; // table.rt: one entry a seat
pub mod hex; // hex.rt: its text in a line

// Bytes of an entry.
pub const SIZE: usize = 16;

#[derive(Clone, Copy, PartialEq, Eq, PartialOrd, Ord)]
pub struct Entry {
    pub hi: u64,
    pub lo: u64,
}

// Sixteen zero bytes, what an unused entry holds.
pub fn zero() -> Entry
    ensures { result ≡ zero_entry }
{
    Entry { hi: 0, lo: 0 }
}

// All 16 bytes, blanks included. `a == b` is the same (law `derived_same`), but ends at the first word that differs: with it the loops over
// rows, which compare several at once, took twice as long.
#[tactic(auto, using(crate::specs::Laws::same_words))]
pub fn same(a: Entry, b: Entry) -> bool
    ensures { result ≡ same a b }
{
    (a.hi == b.hi) & (a.lo == b.lo)
}

// Big-endian words, the higher one first, compare as their bytes do, left to right.
#[tactic(auto, using(crate::specs::Derived::derived_less))]
pub fn less(a: Entry, b: Entry) -> bool
    ensures { result ≡ less a b }
{
    a < b
}

// The highest byte first.
pub fn bytes_of(e: Entry) -> [u8; SIZE]
    ensures { result ≡ bytes_of e }
{
    let mut bytes = [0; SIZE];
    bytes[..8].copy_from_slice(&e.hi.to_be_bytes());
    bytes[8..].copy_from_slice(&e.lo.to_be_bytes());
    bytes
}

// The top bit of every byte of a word.
const TOPS: u64 = 0x8080808080808080;

// Whether the eight bytes of a word are visible ones, then blanks; all eight in each step. To the low seven bits of every byte
// 128 - x is added: no sum leaves its byte, and its top bit tells whether they are x or more. A visible byte stands behind another,
// or is the first.
#[tactic(auto, using(crate::proofs::Marks::stretches_is))]
fn stretches(w: u64) -> bool
    ensures { result ≡ stretched (word_bytes w) }
{
    let low = w & 0x7f7f7f7f7f7f7f7f;
    let seen = low + 0x5f5f5f5f5f5f5f5f;
    let shown = (low + 0x6060606060606060) & (((low + 0x101010101010101) | w) ^ TOPS);
    let behind = seen / 256 + 0x8000000000000000;
    shown & ((seen ^ TOPS) | behind) & TOPS == TOPS
}

// The first byte is no blank, so a visible one. The serial in two words, bytes 0 to 7 and bytes 4 to 11: each two neighbours stand in one
// of them.
#[tactic(auto, using(crate::proofs::Windows::middle_room, crate::proofs::Windows::both_windows))]
pub fn well_formed(e: Entry) -> bool
    ensures { result ≡ well_formed e }
{
    let middle = e.hi % 0x100000000 * 0x100000000 + e.lo / 0x100000000;
    (e.hi / 0x100000000000000 != 0x20) & (stretches(e.hi) & stretches(middle))
}
