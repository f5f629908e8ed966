// The offset of a period from the nominal one: how fast the sender's clock is beside the receiver's (RULES 6.1).
#![tactic(auto)]

ghost use Rattle.std.specs.Prelude.{◌≡◌, ◌&&◌, nat_le};
ghost use Rattle.offset.specs.Offset.{offset_refusal, offset_parts, parts_of, offset_of};

use params::{ParamError, Params, Sheet};

// Why a period has no offset: its sheet is refused, or the period is one that the loop never sets (RULES 6.1).
#[derive(Clone, Copy, PartialEq, Eq, Debug)]
pub enum OffsetError {
    Params(ParamError),
    Period,
}

impl From<ParamError> for OffsetError {
    ghost use Rattle.offset.specs.declared.OffsetError.{OffsetError};

    ghost from_gives = { λ e f. f ≡ OffsetError.Params e };

    fn from(error: ParamError) -> OffsetError {
        OffsetError::Params(error)
    }
}

// Text and C have no enums: there a refusal is its number alone.
impl OffsetError {
    pub fn number(self) -> u32
        ensures { result ≡ (offset_refusal self).number }
    {
        match self {
            OffsetError::Params(e) => e.number(),
            OffsetError::Period => 13,
        }
    }
}

// How fast a sender of this period is, in parts per thousand million (RULES 6.1).
#[tactic(auto, using(params::proofs::Accepted::judging), unfolding(crate::specs::Offset::offset_of))]
pub fn of_period(sheet: &Sheet<'_>, period: u32) -> Result<i64, OffsetError>
    ensures { offset_parts result ≡ offset_of sheet.now period }
{
    sheet.validate()?;
    let p = sheet.params;
    if !is_in_bounds(p, period) {
        return Err(OffsetError::Period);
    }
    Ok(parts_of(p, period))
}

// Whether the loop may set this period.
fn is_in_bounds(p: Params, period: u32) -> bool
    ensures { result ≡ (nat_le p.period_min period && nat_le period p.period_max) }
{
    (p.period_min..=p.period_max).contains(&period)
}

// How much longer the nominal period is, in parts of the period: a sender with the shorter period is the faster one, so positive is fast.
#[tactic(auto, unfolding(crate::specs::Offset::parts_of))]
fn parts_of(p: Params, period: u32) -> i64
    ensures { result ≡ parts_of p period }
{
    let longer = i64::from(p.period_nominal) - i64::from(period);
    arith::divide_nearest(longer * 1_000_000_000, period)
}
