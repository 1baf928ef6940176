// The numbers that fields hold.
ghost use Rattle.std.specs.Prelude.{◌≡◌, ◌≤◌, ◌<◌, Some};
ghost use Rattle.text.specs.Digits.{dec_digit, hex_digit, decimal_of, hex_of, letter_of};

use crate::WORD;
use crate::put::hex_char;

// A decimal digit's number, if the byte is one.
fn dec_digit(x: u8) -> Option<u64>
    ensures { result ≡ dec_digit x }
{
    match x {
        b'0'..=b'9' => Some((x - b'0') as u64),
        _ => None,
    }
}

// A hex digit's number, from the low half of its byte, nine more for a letter, whose byte has the bit 64; of any other byte some
// number below 16. Nothing branches, so that the sixteen steps of `hex` are one step on sixteen bytes.
fn nibble(x: u8) -> u8
    ensures { (result < 16) × ((d : _) → hex_digit x ≡ Some d → result ≡ d) }
{
    (x % 16 + 9 * (x / 64 % 2)) % 16
}

// A decimal with no sign and no leading zero, at most max. Its field has a few bytes: it may leave at the first bad one.
pub fn decimal(t: &[u8], max: u32) -> Option<u64>
    ensures { result ≡ decimal_of max t.now }
{
    if t.is_empty() {
        return None;
    }
    if (t[0] == b'0') & (t.len() != 1) {
        return None;
    }
    let mut v: u64 = 0;
    for x in t {
        v = 10 * v + dec_digit(*x)?;
        // In the loop, not behind it: it keeps 10 * v + d from overflowing.
        if (max as u64) < v {
            return None;
        }
    }
    Some(v)
}

// A word of sixteen lowercase hex digits, the highest first. Every byte is looked at: no early exit. A byte is a digit where the
// number read from it is written as that byte. By places: over `t` itself the sixteen steps are not one, and an entry took 36 ns, not 25.
pub fn hex(t: &[u8]) -> Option<u64>
    ensures { result ≡ hex_of t.now }
{
    if t.len() != WORD {
        return None;
    }
    let mut good = true;
    let mut v: u64 = 0;
    for i in 0..WORD {
        let x = t[i];
        let d = nibble(x);
        good = good & (x == hex_char(d));
        v = 16 * v + (d as u64);
    }
    good.then_some(v)
}

// The only byte of a field of one byte.
pub fn letter(t: &[u8]) -> Option<u8>
    ensures { result ≡ letter_of t.now }
{
    match t {
        [x] => Some(*x),
        _ => None,
    }
}
