// Certificates: masks of the seats whose confirmations were verified.
ghost use Rattle.std.specs.Prelude.{◌≡◌};
ghost use Rattle.seats.specs.Certificate.{good_certificate};

use crate::{View, mask};

#[tactic(auto, unfolding(crate::specs::Certificate::good_certificate))]
pub fn good_certificate(n: u8, f: u8, u: View, m: u64) -> bool
    ensures { result ≡ good_certificate n f u m }
{
    // A view beside a number: `u == View(1)` says no more.
    let later = (1 < u.0) & (mask::within(m, n) & (u32::from(f) + 1 <= mask::seats_in(m)));
    base::pick(u.0 == 1, m == 0, later)
}
