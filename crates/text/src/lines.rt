// A line: where it ends, and its fields, which are separated by commas.
ghost use Rattle.std.specs.Prelude.{◌≡◌, ◌==◌, position};
ghost use Rattle.kinds.specs.Kinds.{field_number};
ghost use Rattle.kinds.specs.Answer.{answer_number};
ghost use Rattle.text.specs.Lines.{line_end_of, Reading};

use crate::{LONGEST, LineEnd, fields};
use kinds::{FieldError, Kind};

// Where a byte first stands.
fn first(s: &[u8], byte: u8) -> Option<usize>
    ensures { result ≡ position (λ b. b == byte) s.now }
{
    s.iter().position(|b| *b == byte)
}

#[tactic(auto, using(crate::proofs::Ends::ends_some, crate::proofs::Ends::ends_none))]
pub fn line_end(s: &[u8]) -> LineEnd
    ensures { result ≡ line_end_of s.now }
{
    // No byte behind the longest line is looked at.
    let most = s.len().min(LONGEST + 1);
    match first(&s[..most], b'\n') {
        Some(n) => LineEnd::After(n),
        None if LONGEST < most => LineEnd::TooLong,
        None => LineEnd::Open,
    }
}

// Reads a line (without its line feed) as fields of these types, and puts their values at the start of `out`. It is malformed where it has another number of
// fields or one of wrong form, and out of range where a value is outside its type (RULES 7.1).
pub fn read_line(line: &[u8], kinds: &[Kind], out: &mut [i64]) -> Result<(), FieldError>
    ensures { Reading kinds.now line.now out.old (answer_number field_number result) out.new }
{
    let mut fields = line.split(|b| *b == b',');
    let mut read = Ok(());
    for (n, kind) in kinds.iter().enumerate() {
        let text = fields.next().ok_or(FieldError::Malformed)?;
        let value = match fields::field(text, *kind) {
            Err(FieldError::Malformed) => return Err(FieldError::Malformed),
            Err(FieldError::OutOfRange) => {
                read = Err(FieldError::OutOfRange);
                0
            }
            Ok(value) => value,
        };
        if n < out.len() {
            out[n] = value;
        }
    }
    match fields.next() {
        None => read,
        Some(_) => Err(FieldError::Malformed),
    }
}
