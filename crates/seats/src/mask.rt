// Sets of seats as 64 bits: bit k is seat k.
ghost use Rattle.std.specs.Prelude.{◌≡◌, true};
ghost use Rattle.seats.specs.Mask.{bit, within, seats_in, with_seat, without, put_seat, rows_of, mask};

use crate::Seat;

// Is seat k in the mask. A loop over seats has k as its index.
#[tactic(auto, using(crate::specs::Bits::none_past), unfolding(crate::specs::Mask::bit))]
pub fn has(m: u64, k: usize) -> bool
    ensures { result ≡ bit m k }
{
    k < 64 && (m >> k) % 2 == 1
}

// The mask with a seat in it.
#[tactic(auto, using(crate::specs::Bits::shl_one), unfolding(crate::specs::Mask::with_seat))]
pub fn with_seat(m: u64, s: Seat) -> u64
    ensures { result ≡ with_seat m s.0 }
{
    if s.0 < 64 { m | (1 << s.0) } else { m }
}

// The seats of a that are not in b, in a form that becomes one instruction.
pub fn without(a: u64, b: u64) -> u64
    ensures { result ≡ without a b }
{
    (a | b) ^ b
}

// The mask with a seat in it or not.
#[tactic(auto, unfolding(crate::specs::Mask::put_seat))]
pub fn put(m: u64, s: Seat, on: bool) -> u64
    ensures { result ≡ put_seat m s.0 on }
{
    if on {
        with_seat(m, s)
    } else {
        without(m, with_seat(0, s))
    }
}

// How many distinct seats.
#[tactic(auto, using(crate::specs::Bits::ones_count), unfolding(crate::specs::Mask::seats_in))]
pub fn seats_in(m: u64) -> u32
    ensures { result ≡ seats_in m }
{
    m.count_ones()
}

// How many of a table's 64 rows are those of seats below n.
pub fn rows_of(n: u8) -> usize
    ensures { result ≡ rows_of n }
{
    usize::from(n.min(64))
}

// All seats below n.
#[tactic(auto, using(crate::proofs::Masks::all_below, crate::proofs::Masks::all_there_are))]
pub fn below(n: u8) -> u64
    ensures { result ≡ mask (λ k. true) (rows_of n) }
{
    if n < 64 { (1 << n) - 1 } else { u64::MAX }
}

// No bit at or above n.
#[tactic(auto, using(crate::proofs::Masks::at_most))]
pub fn within(m: u64, n: u8) -> bool
    ensures { result ≡ within m n }
{
    m <= below(n)
}
