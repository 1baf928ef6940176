// Seats and views, the leader rule, and the sizes of a house.
#![tactic(auto)]

ghost use Rattle.std.specs.Prelude.{◌≡◌};
ghost use Rattle.seats.specs.Seats.{leader_of};

pub mod sizes; // sizes.rt: n and f, the largest f, what setup refuses of them
pub mod mask; // mask.rt: sets of seats as 64 bits
pub mod table; // table.rt: one value a seat
pub mod certificate; // certificate.rt: which masks are good certificates

#[derive(Clone, Copy, PartialEq, Eq, PartialOrd, Ord)]
pub struct Seat(pub u8);

// Views are compared with one another; with a number, as 01 has 0 and 1, by their own.
#[derive(Clone, Copy, PartialEq, Eq, PartialOrd, Ord)]
pub struct View(pub u32);

// The one way from a view to a seat.
pub fn leader(v: View, n: u8) -> Seat
    ensures { result ≡ leader_of v n }
{
    if n == 0 {
        return Seat(0);
    }
    Seat((v.0 % u32::from(n)) as u8)
}
