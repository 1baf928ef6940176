// Standard input to standard output, in constant memory: a window of the input, and a buffer in which the output is collected.
// What is read and written no contract can say: a function that does either promises the rest, any other its whole answer.
// What is done with the input stands in `transcript`. The three streams are handed on one by one: a struct of them would have three types
// in each signature.
#![tactic(auto)]

ghost use Rattle.std.specs.Prelude.{◌-◌, ◌≡◌, cond, ltb, length, take};
ghost use Rattle.messages.specs.Writer.{lent};
ghost use Rattle.transcript.specs.Feeding.{fed_of, cut_state, last_text, within};
ghost use Rattle.trace.specs.Windows.{Inside, in_window, behind_by, ran_in, carried, refilled_to, ReadBehind, BehindFirst};

use std::io::{ErrorKind, Read, Write};
use transcript::State;
use transcript::begin::{begin, put_refusal};
use transcript::feed::{Fed, feed};
use transcript::finish::finish;
use transcript::lines::end_of_line;

// Bytes of the window of the input, and of the buffer of the output.
const ROOM: usize = 65536;

// What was read of the input: buf[at..end] was not used yet. An array and two places in it: there is no heap.
#[derive(Drop)]
struct Input {
    buf: [u8; ROOM],
    at: usize,
    end: usize,
    ghost inside: { Inside at end buf },
    ghost sized: { length buf ≡ 65536 },
}

// An input that was read on: whether one line filled it before, and whether it is over.
#[derive(Clone, Copy)]
struct Refilled {
    full: bool,
    over: bool,
}

// What failed goes to standard error, and the status stays 0. Where that cannot be written either, nothing more is said.
fn complain(errors: &mut impl Write, what: &[u8]) {
    let _ = errors.write_all(what);
}

impl Input {
    // One read behind what is there. The end stays where it is when the input is over, or cannot be read.
    fn read_more(&mut self, source: &mut impl Read, errors: &mut impl Write)
        ensures { (self.new.at ≡ self.old.at) × ReadBehind (take self.old.end self.old.buf) self.new.end self.new.buf }
    {
        let end = self.end;
        match source.read(&mut self.buf[end..]) {
            Ok(got) => {
                self.end = end + got;
            }
            Err(_) => {
                complain(errors, b"trace: standard input cannot be read\n");
            }
        }
    }

    // What is left goes to the front. A line that is not over yet is there already: it is read on where it is.
    fn shift(&mut self)
        ensures { (self.new.at ≡ 0) × (self.new.end ≡ self.old.end - self.old.at) × (self.new.buf ≡ lent self.old.buf (in_window self.old.at self.old.end self.old.buf)) }
    {
        let at = self.at;
        let end = self.end;
        if at == 0 {
            return;
        }
        self.buf.copy_within(at..end, 0);
        self.at = 0;
        self.end = end - at;
    }

    // One read behind what is left. A line that fills the window is too long to be any: its front is dropped.
    fn refill(&mut self, source: &mut impl Read, errors: &mut impl Write) -> Refilled
        ensures { (result ≡ refilled_to self.old.at self.old.end self.old.buf self.new.end) × (self.new.at ≡ 0) × ReadBehind (carried self.old.at self.old.end self.old.buf) self.new.end self.new.buf }
    {
        self.shift();
        let full = self.end == ROOM;
        let was = if full { 0 } else { self.end };
        self.end = was;
        self.read_more(source, errors);
        Refilled {
            full,
            over: self.end == was,
        }
    }

    // Some of it was used.
    fn pass(&mut self, used: usize)
        ensures { (self.new.at ≡ behind_by self.old.at self.old.end used) × (self.new.end ≡ self.old.end) × (self.new.buf ≡ self.old.buf) }
    {
        self.at += used.min(self.end - self.at);
    }

    // Reads until the first line is whole, the window is full or the input is over. The turns are counted, as in `go_on`.
    fn read_first(&mut self, source: &mut impl Read, errors: &mut impl Write)
        requires { (self.old.at ≡ 0) × (self.old.end ≡ 0) }
        ensures { BehindFirst self.new.at self.new.end self.new.buf }
    {
        for _ in 0..usize::MAX {
            let was = self.end;
            self.read_more(source, errors);
            let line = end_of_line(&self.buf[..self.end], 0);
            if line.is_some() | (self.end == was) {
                self.at = line.unwrap_or(0);
                return;
            }
        }
    }

    fn feed(&self, state: State, out: &mut [u8]) -> Fed
        ensures { (result ≡ fed_of (ran_in state self.now.at self.now.end self.now.buf (length out.old))) × (out.new ≡ lent out.old (ran_in state self.now.at self.now.end self.now.buf (length out.old)).text) }
    {
        feed(state, &self.buf[self.at..self.end], out)
    }
}

// False when it cannot be written. Of a pipe that nobody reads any more nothing is said. How much was put stands beside the buffer, and is
// looked at: that it is within, no caller has proved.
fn write_front(output: &mut impl Write, errors: &mut impl Write, out: &[u8], put: usize) -> bool {
    let n = put.min(out.len());
    match output.write_all(&out[..n]) {
        Ok(()) => true,
        Err(e) => {
            if e.kind() != ErrorKind::BrokenPipe {
                complain(errors, b"trace: standard output cannot be written\n");
            }
            false
        }
    }
}

// A function of its own for its contract: `go_on`, which calls it, can promise nothing of what it does.
fn cut_if(full: bool, state: State) -> State
    ensures { result ≡ cond full (cut_state state) state }
{
    if full { state.cut_line() } else { state }
}

// What the end of the input prints.
fn write_last(
    output: &mut impl Write,
    errors: &mut impl Write,
    state: State,
    input: &Input,
    out: &mut [u8],
)
    ensures { out.new ≡ lent out.old (within (length out.old) (last_text state (ltb input.now.at input.now.end))) }
{
    let put = finish(state, input.at < input.end, out);
    write_front(output, errors, out, put);
}

// The events. The turns are counted, since a proved loop has to end and nothing says that the input does.
fn go_on(
    source: &mut impl Read,
    output: &mut impl Write,
    errors: &mut impl Write,
    first: State,
    input: &mut Input,
    out: &mut [u8],
) {
    let mut state = first;
    for _ in 0..usize::MAX {
        let fed = input.feed(state, out);
        state = fed.state;
        input.pass(fed.used);
        if !write_front(output, errors, out, fed.put) {
            return;
        }
        if 0 < fed.used {
            continue;
        }
        let more = input.refill(source, errors);
        state = cut_if(more.full, state);
        if more.over {
            break;
        }
    }
    write_last(output, errors, state, input, out);
}

fn run(
    source: &mut impl Read,
    output: &mut impl Write,
    errors: &mut impl Write,
    input: &mut Input,
    out: &mut [u8],
)
    requires { (input.old.at ≡ 0) × (input.old.end ≡ 0) }
{
    input.read_first(source, errors);
    let begun = begin(&input.buf[..input.at]);
    if begun.number != 0 {
        let put = put_refusal(out, begun.number);
        write_front(output, errors, out, put);
        if begun.number == 19 {
            complain(
                errors,
                b"trace: the first line must be H, n, f, seat and entry (32 digits of 0-9a-f), with one tab and no blanks between two of them, and a line feed at the end\n",
            );
        }
        return;
    }
    go_on(source, output, errors, begun.state, input, out);
}

fn main(rt: HostRuntime) {
    let mut input = Input {
        buf: [0u8; ROOM],
        at: 0,
        end: 0,
    };
    let mut out = [0u8; ROOM];
    run(
        &mut rt.stdin(),
        &mut rt.stdout(),
        &mut rt.stderr(),
        &mut input,
        &mut out,
    );
}
