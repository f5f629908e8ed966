// The next line of the input, or what is wrong with its end.
ghost use Rattle.std.specs.Prelude.{◌≡◌};
ghost use Rattle.recording.specs.Lines.{next_of, next_at_end};

use crate::{InputError, Next};
use text::LineEnd;

// The last line that every input has: behind the sheet's fields come 64 rows of each of three banks.
const NEEDED: u64 = 193;

// The input is at its end, behind so many bytes of this line.
#[tactic(auto, unfolding(crate::specs::Lines::next_at_end))]
fn end(unread: usize, line: u64) -> Result<Next, InputError>
    ensures { result ≡ next_at_end unread line }
{
    if 0 < unread {
        return Err(InputError::Malformed);
    }
    if line <= NEEDED {
        return Err(InputError::Missing);
    }
    Ok(Next::End)
}

// What the bytes that are read and not used yet begin with, at this line; `over` where nothing is behind them.
#[tactic(auto, unfolding(crate::specs::Lines::next_of))]
pub fn next_line(bytes: &[u8], over: bool, line: u64) -> Result<Next, InputError>
    ensures { result ≡ next_of bytes.now over line }
{
    match text::line_end(bytes) {
        LineEnd::After(n) => Ok(Next::Line(n)),
        LineEnd::TooLong => Err(InputError::Malformed),
        LineEnd::Open if over => end(bytes.len(), line),
        LineEnd::Open => Ok(Next::More),
    }
}
