// Where a line ends.
ghost use Rattle.std.specs.Prelude.{◌≡◌, ◌+◌, ◌≤◌, length};
ghost use Rattle.transcript.specs.LineEnds.{has_lf, behind_line};

use text::LF;

// Bytes that are looked at together.
const BLOCK: usize = 16;

// Whether one of the sixteen bytes from `at` on is an LF. No early exit, so that they are compared at once.
fn block_has(s: &[u8], at: usize) -> bool
    requires { at + 16 ≤ length s.now }
    ensures { result ≡ has_lf s.now at 16 }
{
    let mut hit = false;
    for i in 0..BLOCK {
        hit |= s[at + i] == LF;
    }
    hit
}

// Past the blocks without an LF.
fn skip_blocks(s: &[u8], from: usize) -> usize
    requires { from ≤ length s.now }
    ensures { (behind_line s.now result ≡ behind_line s.now from) × (result ≤ length s.now) }
{
    let n = s.len();
    for i in (from..n).step_by(BLOCK) {
        if n - i < BLOCK || block_has(s, i) {
            return i;
        }
    }
    n
}

// The place behind the first LF from `from` on.
pub(crate) fn behind_line(s: &[u8], from: usize) -> Option<usize>
    requires { from ≤ length s.now }
    ensures { result ≡ behind_line s.now from }
{
    let near = skip_blocks(s, from);
    let k = s[near..].iter().position(|b| *b == LF)?;
    Some(near + k + 1)
}

// The same from any place on.
pub fn end_of_line(s: &[u8], from: usize) -> Option<usize>
    ensures { result ≡ behind_line s.now from }
{
    if s.len() < from {
        return None;
    }
    behind_line(s, from)
}
