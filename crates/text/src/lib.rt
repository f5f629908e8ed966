// The text that the symbol program reads, on lent bytes: where a line ends, and the numbers that it holds.
#![tactic(auto)]

mod claims;
mod fields;
mod lines;

pub use claims::{inverse_holds, settled};
pub use lines::{line_end, read_line};

// The most bytes that a line may have before its line feed.
pub const LONGEST: usize = 1024;

// Where the first line of some bytes ends.
#[derive(Clone, Copy, PartialEq, Eq, Debug)]
pub enum LineEnd {
    // With a line feed, after so many bytes.
    After(usize),
    // It has more bytes than a line may have.
    TooLong,
    // Not within these bytes.
    Open,
}
