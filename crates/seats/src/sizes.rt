// n and f: how many faulty seats a house bears, and what setup refuses.
ghost use Rattle.std.specs.Prelude.{◌≡◌};
ghost use Rattle.base.specs.Refusal.{judged};
ghost use Rattle.seats.specs.Sizes.{most_faulty, size_refusals, seat_refusals, quorum};

use crate::Seat;
use base::refusal::{Refusal, refuse_if};

// The test for 64 comes first: at 255 n + 1 does not fit. Below 4 the quotient is 0 by itself.
#[tactic(auto, using(crate::specs::SizeLaws::few_seats, crate::specs::SizeLaws::many_seats))]
pub fn most_faulty(n: u8) -> u8
    ensures { result ≡ most_faulty n }
{
    if 64 < n { 0 } else { (n + 1) / 5 }
}

// What setup refuses of n and f.
pub fn check_sizes(n: u8, f: u8) -> Result<(), Refusal>
    ensures { result ≡ judged (size_refusals n f) }
{
    refuse_if(!((4 <= n) & (n <= 64)), Refusal::HouseSize)?;
    refuse_if((f == 0) | (most_faulty(n) < f), Refusal::FaultySeats)
}

// And of the own seat.
pub fn check_seat(n: u8, f: u8, s: Seat) -> Result<(), Refusal>
    ensures { result ≡ judged (seat_refusals n f s) }
{
    check_sizes(n, f)?;
    refuse_if(n <= s.0, Refusal::OwnSeat)
}

// n − f, 0 where f is above n. n and f stay two numbers: C and H hand them in one by one, `leader`, `below`, `within` and `rows_of` ask n
// alone, and every theorem speaks of each; a pair would be made at a call and taken apart in it.
pub fn quorum(n: u8, f: u8) -> u32
    ensures { result ≡ quorum n f }
{
    u32::from(n.saturating_sub(f))
}
