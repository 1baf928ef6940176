// The line H: n, f or a dash, seat, entry.
ghost use Rattle.std.specs.Prelude.{◌≡◌};
ghost use Rattle.messages.specs.Setup.{sizes_at, read_setup};

use crate::TOP_SETUP;
use crate::read::{dash_at, entry_at, number_at};
use entry::Entry;
use seats::Seat;
use text::digits::letter;
use text::field::{field, over};

const SETUP: u8 = b'H';

// What H says. Where a dash stands f is None: what a dash means is said where the trace begins.
#[derive(Clone, Copy)]
pub struct Setup {
    pub n: u8,
    pub f: Option<u8>,
    pub seat: Seat,
    pub entry: Entry,
}

// What the fields of n and f say, and where the second ends.
#[tactic(auto, unfolding(crate::specs::Setup::sizes_at))]
fn sizes_at(t: &[u8], end: usize) -> Option<(u8, Option<u8>, usize)>
    ensures { result ≡ sizes_at t.now end }
{
    let (n, behind_n) = number_at(t, end, TOP_SETUP)?;
    match dash_at(t, behind_n) {
        Some(end) => Some((n as u8, None, end)),
        None => {
            let (f, end) = number_at(t, behind_n, TOP_SETUP)?;
            Some((n as u8, Some(f as u8), end))
        }
    }
}

#[tactic(auto, unfolding(crate::specs::Setup::read_setup, crate::specs::Setup::setup_at))]
pub fn read_setup(line: &[u8]) -> Option<Setup>
    ensures { result ≡ read_setup line.now }
{
    if letter(field(line, 0))? != SETUP {
        return None;
    }
    let (n, f, end) = sizes_at(line, 1)?;
    let (seat, end) = number_at(line, end, TOP_SETUP)?;
    let (entry, end) = entry_at(line, end)?;
    let setup = Setup {
        n,
        f,
        seat: Seat(seat as u8),
        entry,
    };
    over(line, end).then_some(setup)
}
