// The selection by itself, over rows that the caller lends.
ghost use Rattle.std.specs.Prelude.{◌≡◌};
ghost use Rattle.votes.specs.Rows.{no_rows, gathered, selected};

use crate::{Choice, Row, Rows};
use base::refusal::Refusal;
use seats::View;

// The lent rows, gathered in their order.
pub fn gather_over(n: u8, f: u8, v: View, rows: &[Row]) -> Rows
    ensures { result ≡ gathered (no_rows n f v) rows.now }
{
    let mut t = Rows::none(n, f, v);
    for row in rows {
        t = t.add(*row);
    }
    t
}

// "from a table that the caller lends": 1, 2, 5, 15 or the choice.
#[tactic(auto, using(crate::specs::Gather::gathered_selected))]
pub fn select_over(n: u8, f: u8, v: View, rows: &[Row]) -> Result<Choice, Refusal>
    ensures { result ≡ selected n f v rows.now }
{
    gather_over(n, f, v, rows).select()
}
