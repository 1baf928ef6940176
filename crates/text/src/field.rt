// A field ends at the first tab or at the end of the line. Nothing else looks for either.
ghost use Rattle.std.specs.Prelude.{◌≡◌, ◌+◌, length, drop};
ghost use Rattle.text.specs.Fields.{ending, field_at, place_behind, over};

use crate::put::has_room;
use crate::{LF, TAB};

// How many bytes of a line's end stand at `at`. What ends a line is said here alone; `past` stops at whatever may begin an end.
fn line_end(s: &[u8], at: usize) -> usize
    ensures { result ≡ ending (drop at s.now) }
{
    if s.len() <= at {
        return 0;
    }
    (s[at] == LF) as usize
}

// Where the field that starts at `from` ends. The rules name this form (docs/RULES.md, "Which shape goes where"): a loop that yields
// the end by `break`.
fn field_end(s: &[u8], from: usize) -> usize
    ensures { result ≡ from + length (field_at s.now from) }
{
    let mut i = from;
    loop {
        if s.len() <= i {
            break i;
        }
        if (s[i] == TAB) | (0 < line_end(s, i)) {
            break i;
        }
        i += 1;
    }
}

// Where the k bytes from `from` on end, if each of them belongs to the field there: none is a tab, or begins a line's end. Else
// `from`. Every byte is looked at, so that sixteen are in one step.
fn past(s: &[u8], from: usize, k: usize) -> usize
    ensures { result + length (field_at s.now result) ≡ from + length (field_at s.now from) }
{
    if !has_room(s, from, k) {
        return from;
    }
    let end = from + k;
    let mut inside = true;
    for x in &s[from..end] {
        inside = inside & (*x != TAB) & (*x != LF);
    }
    if inside { end } else { from }
}

// The field that starts at `from`, a part of the lent text; past its end the empty part there.
pub fn field(s: &[u8], from: usize) -> &[u8]
    ensures { result.now ≡ field_at s.now from }
{
    field_of(s, from, 0)
}

// The same field, found in fewer steps where it has the k bytes that it should have.
pub fn field_of(s: &[u8], from: usize, k: usize) -> &[u8]
    ensures { result.now ≡ field_at s.now from }
{
    let n = s.len();
    if n < from {
        return &s[n..n];
    }
    let end = field_end(s, past(s, from, k));
    &s[from..end]
}

// Where the next field starts, if one ended at `end`: behind the tab. At the end of the text where there is no tab.
pub fn place_behind(s: &[u8], end: usize) -> usize
    ensures { result ≡ place_behind s.now end }
{
    let n = s.len();
    if n <= end {
        return n;
    }
    if s[end] == TAB { end + 1 } else { n }
}

// Whether the line is over at `end`: its end stands there, and nothing behind it.
pub fn over(s: &[u8], end: usize) -> bool
    ensures { result ≡ over s.now end }
{
    let k = line_end(s, end);
    (0 < k) & (end + k == s.len())
}
