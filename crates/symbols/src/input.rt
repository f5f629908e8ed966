// Standard input, line by line through one buffer. A line is read where it stands; only one that the buffer's end cuts is moved to its front.
ghost use Rattle.std.specs.Prelude.{◌≤◌, ◌<◌, ◌+◌, IfOk};

use crate::stop::Stop;
use kinds::Kind;
use recording::{InputError, Next};
use std::io::{Read, Stderr, Stdin};

// More reads than one line can take: each but the last brings a byte, and a line of more than 1,024 is too long.
const READS: u32 = 1026;

// Where the bytes come from and where a failure is told, what the buffer holds and is not used yet, from `at` to before `end`, whether the input has ended
// behind it, and the number of the line that comes next. The library's BufReader takes its buffer from an allocator, and the program uses none. With the end
// goes no value: bytes may still be there.
#[derive(Drop)]
pub(crate) struct Input {
    stdin: Stdin,
    stderr: Stderr,
    bytes: [u8; 65536],
    at: usize,
    end: usize,
    over: bool,
    line: u64,
    ghost ordered: { at ≤ end },
    ghost inside: { end ≤ 65536 },
}

impl Input {
    pub(crate) fn new(stdin: Stdin, stderr: Stderr) -> Input {
        Input {
            stdin,
            stderr,
            bytes: [0; 65536],
            at: 0,
            end: 0,
            over: false,
            line: 1,
        }
    }

    // Reads on behind the bytes that are not used yet.
    fn read_on(&mut self) -> Result<(), Stop> {
        self.bytes.copy_within(self.at..self.end, 0);
        let kept = self.end - self.at;
        self.at = 0;
        self.end = kept;
        match self.stdin.read(&mut self.bytes[kept..]) {
            Ok(n) => {
                self.end = kept + n;
                self.over = n == 0;
                Ok(())
            }
            Err(e) => {
                // A message that cannot be written either is lost.
                let _ = eprintln!(self.stderr; "symbols: reading standard input: {e}");
                Err(Stop::Failed)
            }
        }
    }

    fn refused(&self, number: u32) -> Stop {
        Stop::Refused {
            number,
            line: self.line,
        }
    }

    // How many bytes the next line has. More is read until it is there, or nothing can be.
    fn next_length(&mut self) -> Result<usize, Stop>
        ensures { IfOk result (λ n. self.new.at + n < self.new.end) }
    {
        for _ in 0..READS {
            match recording::next_line(&self.bytes[self.at..self.end], self.over, self.line) {
                Ok(Next::Line(n)) => return Ok(n),
                Ok(Next::End) => return Err(Stop::End),
                Ok(Next::More) => self.read_on()?,
                Err(e) => return Err(self.refused(e.number())),
            }
        }
        Err(self.refused(InputError::Malformed.number()))
    }

    // Takes the next line as fields of these types, and puts their values at the start of `values`.
    pub(crate) fn take(&mut self, kinds: &[Kind], values: &mut [i64]) -> Result<(), Stop> {
        let length = self.next_length()?;
        let end = self.at + length;
        let bytes = &self.bytes[self.at..end];
        text::read_line(bytes, kinds, values).map_err(|e| self.refused(e.number()))?;
        self.at = end + 1;
        self.line = self.line.wrapping_add(1);
        Ok(())
    }
}
