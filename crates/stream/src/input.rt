// An input of any length, a line at a time.
ghost use Rattle.std.specs.Prelude.{◌+◌, ◌≡◌, ◌≤◌, length};

use std::io::{Read, Result};
use std::mem;

// The places of what is read and not yet taken: it stands in a buffer from the place `next` up to `held`. Passing: it begins with the
// rest of a line which was too long, and is passed over. Over: all was read.
#[derive(Clone, Copy)]
pub struct Input {
    next: usize,
    held: usize,
    passing: bool,
    over: bool,
    ghost ordered: { next ≤ held },
}

// What a step comes to: a line, given by its place in the buffer and its length; no line yet; or that there is no other.
#[derive(Clone, Copy)]
enum Step {
    Line(usize, usize),
    Going,
    End,
}

impl Input {
    // Nothing is read.
    const NONE: Input = Input {
        next: 0,
        held: 0,
        passing: false,
        over: false,
    };

    // How far a reader is.
    pub fn of_reader<R>(reader: &Reader<'_, R>) -> Input
        ensures { result ≡ reader.now.input }
    {
        reader.input
    }

    // Takes the next n bytes, and what ends them: a line, unless they are passed over. Passing: so is what stands behind them.
    fn take(&mut self, n: usize, ending: usize, passing: bool) -> Step
        requires { self.old.next + n + ending ≤ self.old.held }
        ensures { self.new.held ≡ self.old.held }
    {
        let start = self.next;
        self.next += n + ending;
        if mem::replace(&mut self.passing, passing) {
            return Step::Going;
        }
        Step::Line(start, n)
    }
}

// Where an input comes from, the buffer that it is read into, and how far it is.
#[derive(Drop)]
pub struct Reader<'a, R> {
    from: R,
    buffer: &'a mut [u8],
    input: Input,
    ghost within: { input.held ≤ length buffer.now },
}

impl<'a, R: Read> Reader<'a, R> {
    // An input of which nothing is read.
    pub fn new(from: R, buffer: &'a mut [u8]) -> Reader<'a, R> {
        Reader {
            from,
            buffer,
            input: Input::NONE,
        }
    }

    // The next line; none at the end. Of a line of more than `most` bytes that many or more are given, and the rest is passed over.
    pub fn next_line(&mut self, most: usize) -> Result<Option<&[u8]>> {
        for _ in 0..u64::MAX {
            match self.step(most)? {
                Step::Line(start, len) => {
                    return Ok(Some(lines::cut(lines::tail(self.buffer, start), len)));
                }
                Step::Going => {}
                Step::End => return Ok(None),
            }
        }
        Ok(None)
    }

    // Takes what is next up to the end of a line, or more than `most` bytes of one, or reads once.
    fn step(&mut self, most: usize) -> Result<Step> {
        let input = self.input;
        let rest = &self.buffer[input.next..input.held];
        let all = rest.len();
        let n = laws::find(rest, b'\n');
        if n < all {
            return Ok(self.input.take(n, 1, false));
        }
        if input.over && (input.passing || all == 0) {
            return Ok(Step::End);
        }
        if input.over || most < all {
            return Ok(self.input.take(all, 0, !input.over));
        }
        self.fill()?;
        Ok(Step::Going)
    }

    // Moves what is not taken to the front, and reads once behind it.
    fn fill(&mut self) -> Result<()> {
        let held = buffer::shift(self.buffer, self.input.next, self.input.held);
        self.input = Input {
            next: 0,
            held,
            passing: self.input.passing,
            over: false,
        };
        let n = self.from.read(&mut self.buffer[held..])?;
        self.input.held += n;
        self.input.over = n == 0;
        Ok(())
    }
}
