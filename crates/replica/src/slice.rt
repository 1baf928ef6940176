// Q over rows that the caller lends.
ghost use Rattle.std.specs.Prelude.{◌≡◌};
ghost use Rattle.replica.specs.Steps.{answer_of, ask_step};

use crate::{Answer, Replica};
use messages::Request;
use votes::{Row, slice};

impl Replica {
    // "from a table that the caller lends": the request's rows, in their order.
    pub fn ask_over(self, q: Request, rows: &[Row]) -> Answer
        ensures { result ≡ answer_of (ask_step self q rows.now) }
    {
        self.ask(q, slice::gather_over(self.n, self.f, q.head.view, rows))
    }
}
