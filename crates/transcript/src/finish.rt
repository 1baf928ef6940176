// A line that is too long, and the end of the input.
ghost use Rattle.std.specs.Prelude.{◌≡◌, length};
ghost use Rattle.messages.specs.Writer.{lent};
ghost use Rattle.transcript.specs.Feeding.{cut_state, last_text, within};

use crate::State;
use crate::feed::next_event;
use crate::print::{ROOM, put_event};

impl State {
    // The front of a line that is longer than any is dropped.
    pub fn cut_line(mut self) -> State
        ensures { result ≡ cut_state self }
    {
        self.cut = true;
        self
    }
}

// The input is over. A line without its LF (`more`), or a request whose rows are missing, is one event with 19.
pub fn finish(state: State, more: bool, out: &mut [u8]) -> usize
    ensures { (result ≡ length (within (length out.old) (last_text state more))) × (out.new ≡ lent out.old (within (length out.old) (last_text state more))) }
{
    if out.len() < ROOM {
        return 0;
    }
    if !((more | state.cut) | (0 < state.left)) {
        return 0;
    }
    put_event(
        out,
        0,
        next_event(state.events),
        19,
        None,
        state.margin,
        None,
    )
}
