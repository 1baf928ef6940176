// The text of an entry: two hex digits a byte. Whoever reads or writes one never sees how wide an entry is.
ghost use Rattle.std.specs.Prelude.{◌≡◌};
ghost use Rattle.entry.specs.Hex.{entry_field, entry_text};
ghost use Rattle.text.specs.Put.{placed};

use crate::{Entry, SIZE};
use text::WORD;
use text::digits::hex;
use text::put::{has_room, put_hex};

// Digits of an entry.
pub const DIGITS: usize = 2 * SIZE;

// The entry that a field holds: two words of digits.
pub fn read_entry(t: &[u8]) -> Option<Entry>
    ensures { result ≡ entry_field t.now }
{
    let (hi, lo) = t.split_at_checked(WORD)?;
    Some(Entry {
        hi: hex(hi)?,
        lo: hex(lo)?,
    })
}

// The digits from `at` on; none of them where they have no room.
#[tactic(auto, using(crate::proofs::HexText::no_room, crate::proofs::HexText::put_words))]
pub fn put_text(s: &mut [u8], at: usize, e: Entry)
    ensures { s.new ≡ placed s.old at (entry_text e) }
{
    if !has_room(s, at, DIGITS) {
        return;
    }
    put_hex(s, at, e.hi);
    put_hex(s, at + WORD, e.lo);
}
