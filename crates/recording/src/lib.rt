// A recording as the symbol program reads it: what its next line is, and where the numbers of a line go. All of it is on values; the reading itself, and
// what is made of the numbers, is the program's (crates/symbols).
#![tactic(auto)]

mod lines;
mod places;

pub use lines::next_line;
pub use places::{bank_length, keep_pair, keep_row, row_length};

// What comes next in the input.
#[derive(Clone, Copy, PartialEq, Eq, Debug)]
pub enum Next {
    // A line of so many bytes. Its line feed stands behind them.
    Line(usize),
    // That depends on bytes that are not read yet.
    More,
    // Nothing, and nothing is missing.
    End,
}

// Why the input is refused where its next line is looked for.
#[derive(Clone, Copy, PartialEq, Eq, Debug)]
pub enum InputError {
    // The line is too long, or the input ends within it.
    Malformed,
    // The input ends before a line that every input has.
    Missing,
}

impl InputError {
    ghost use Rattle.std.specs.Prelude.{◌≡◌};
    ghost use Rattle.recording.specs.Lines.{input_number};

    // One form for all errors: those that hold something have no discriminant to cast.
    pub fn number(self) -> u32
        ensures { result ≡ input_number self }
    {
        match self {
            InputError::Malformed => 18,
            InputError::Missing => 20,
        }
    }
}
