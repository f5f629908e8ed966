// A field: a whole number in decimal, read as one of the types of crates/kinds.
ghost use Rattle.std.specs.Prelude.{◌≡◌, ◌+◌, ◌*◌, ◌≤◌, ◌<◌, ◌^◌, min};
ghost use Rattle.text.specs.Fields.{numeral, kept, plain, negative, field_of};

use kinds::{FieldError, Kind};

// Past the ends of every type. A number stays there once it is there, however many digits follow.
const PAST: u64 = 0x8000_0000_0000_0001;

fn with_digit(size: u64, digit: u8) -> u64
    ensures { result ≡ min (size * 10 + digit) (2 ^ 63 + 1) }
{
    size.saturating_mul(10)
        .saturating_add(u64::from(digit))
        .min(PAST)
}

// The number that has these digits: at least one, and no 0 before others. By hand, since `parse` takes a plus sign and zeros in front, and is of text.
#[tactic(auto, using(crate::proofs::Reading::digit_more), unfolding(crate::specs::Fields::numeral))]
fn number(digits: &[u8]) -> Option<u64>
    ensures { result ≡ kept (numeral digits.now) }
{
    if let [] | [b'0', _, ..] = digits {
        return None;
    }
    let mut size = 0;
    for b in digits {
        if !b.is_ascii_digit() {
            return None;
        }
        size = with_digit(size, *b - b'0');
    }
    Some(size)
}

// The number with these digits, up to `up`. By `match` and not `?`, as the one below, where a 0 goes with None.
#[tactic(auto, using(crate::proofs::Reading::plain_cut))]
fn above_zero(digits: &[u8], up: u64) -> Result<i64, FieldError>
    requires { up < 2 ^ 63 }
    ensures { result ≡ plain up (numeral digits.now) }
{
    match number(digits) {
        None => Err(FieldError::Malformed),
        Some(size) if up < size => Err(FieldError::OutOfRange),
        Some(size) => Ok(size as i64),
    }
}

// The number with these digits behind a minus sign, down to `down` below zero.
#[tactic(auto, using(crate::proofs::Reading::negative_cut))]
fn below_zero(digits: &[u8], down: u64) -> Result<i64, FieldError>
    requires { down ≤ 2 ^ 63 }
    ensures { result ≡ negative down (numeral digits.now) }
{
    match number(digits) {
        None | Some(0) => Err(FieldError::Malformed),
        Some(size) if down < size => Err(FieldError::OutOfRange),
        Some(size) => Ok(0i64.saturating_sub_unsigned(size)),
    }
}

#[tactic(auto, unfolding(crate::specs::Fields::field_of, crate::specs::Fields::field_in))]
pub(crate) fn field(s: &[u8], kind: Kind) -> Result<i64, FieldError>
    ensures { result ≡ field_of kind s.now }
{
    match s {
        [] => Err(FieldError::Malformed),
        [b'-', digits @ ..] => below_zero(digits, kind.least().unsigned_abs()),
        _ => above_zero(s, kind.most().unsigned_abs()),
    }
}
