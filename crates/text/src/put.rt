// Bytes put into lent memory at a place: whole, or not at all where they have no room. No Display: a line that
// does not fit must touch no byte, and a formatter writes piece by piece.
ghost use Rattle.std.specs.Prelude.{◌≡◌, [], ◌∷◌, ◌<◌};
ghost use Rattle.text.specs.Digits.{hex_char, hex, decimal, width};
ghost use Rattle.text.specs.Put.{placed, room};

use crate::WORD;

pub fn has_room(s: &[u8], at: usize, k: usize) -> bool
    ensures { result ≡ room s.now at k }
{
    let n = s.len();
    if n < k {
        return false;
    }
    at <= n - k
}

pub fn put_byte(s: &mut [u8], at: usize, b: u8)
    ensures { s.new ≡ placed s.old at (b ∷ []) }
{
    if at < s.len() {
        s[at] = b;
    }
}

// No branch, so that the sixteen steps of `hex` are one step on sixteen bytes.
pub(crate) fn hex_char(d: u8) -> u8
    requires { d < 16 }
    ensures { result ≡ hex_char d }
{
    b'0' + d + 39 * ((9 < d) as u8)
}

// The same, looked up: of one digit in fewer steps. (Two forms for speed: `hex` needs the one without a table, `put_hex` the other.)
fn listed_char(d: u8) -> u8
    requires { d < 16 }
    ensures { result ≡ hex_char d }
{
    let chars: [u8; 16] = [
        b'0', b'1', b'2', b'3', b'4', b'5', b'6', b'7', b'8', b'9', b'a', b'b', b'c', b'd', b'e',
        b'f',
    ];
    chars[d as usize]
}

pub fn put_hex(s: &mut [u8], at: usize, w: u64)
    ensures { s.new ≡ placed s.old at (hex w) }
{
    if !has_room(s, at, WORD) {
        return;
    }
    for k in 0..WORD {
        s[at + k] = listed_char(((w >> (4 * (WORD - 1 - k))) % 16) as u8);
    }
}

// How many decimal digits: one more for each power of ten that is reached.
pub fn width(v: u64) -> usize
    ensures { result ≡ width v }
{
    v.max(1).ilog10() as usize + 1
}

// A decimal with no leading zero, from its last digit on. The answer is how many digits it has, also where they have no room.
pub fn put_decimal(s: &mut [u8], at: usize, v: u64) -> usize
    ensures { (result ≡ width v) × (s.new ≡ placed s.old at (decimal v)) }
{
    let k = width(v);
    if !has_room(s, at, k) {
        return k;
    }
    let mut rest = v;
    for i in (at..at + k).rev() {
        s[i] = b'0' + ((rest % 10) as u8);
        rest = rest / 10;
    }
    k
}
