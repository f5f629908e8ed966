// A sheet as 18 places, its fields in their order (RULES 1.1).
ghost use Rattle.std.specs.Prelude.{◌≤◌, ◌≡◌, ◌++◌, length, take, drop, IfOk};
ghost use Rattle.kinds.specs.Answer.{answer_number};
ghost use Rattle.kinds.specs.Kinds.{field_number};
ghost use Rattle.places.specs.Refusal.{places_refusal};
ghost use Rattle.places.specs.Sheet.{sheet_kinds, sheet_number, params_at, sheet_numbers, sheet_written};
ghost use Rattle.places.specs.Crossing.{TypedSheet};

use crate::PlacesError;
use crate::numbers::number_at;
use kinds::{FieldError, Kind};
use params::Params;

// The types of the fields.
pub fn sheet_kinds() -> [Kind; 18]
    ensures { result ≡ sheet_kinds }
{
    [
        Kind::U32,
        Kind::I32,
        Kind::U32,
        Kind::U32,
        Kind::U32,
        Kind::U8,
        Kind::I16,
        Kind::U8,
        Kind::I16,
        Kind::U8,
        Kind::I32,
        Kind::U32,
        Kind::U32,
        Kind::U8,
        Kind::U8,
        Kind::U8,
        Kind::U8,
        Kind::U8,
    ]
}

// The fields of a sheet that can be read.
#[tactic(auto, using(crate::proofs::Readable::sheet_at), unfolding(crate::specs::Sheet::params_at))]
pub(crate) fn params_of(sheet: &[i64]) -> Params
    requires { sheet_number sheet.now ≡ 0 }
    ensures { result ≡ params_at sheet.now }
{
    Params {
        taps: number_at(sheet, 0),
        nco_step: number_at(sheet, 1),
        period_nominal: number_at(sheet, 2),
        period_min: number_at(sheet, 3),
        period_max: number_at(sheet, 4),
        ted_shift: number_at(sheet, 5),
        kp: number_at(sheet, 6),
        kp_shift: number_at(sheet, 7),
        ki: number_at(sheet, 8),
        ki_shift: number_at(sheet, 9),
        integrator_max: number_at(sheet, 10),
        agc_init: number_at(sheet, 11),
        agc_target: number_at(sheet, 12),
        agc_shift: number_at(sheet, 13),
        bits: number_at(sheet, 14),
        q_shift: number_at(sheet, 15),
        block_log2: number_at(sheet, 16),
        delay: number_at(sheet, 17),
    }
}

// The sheet of these places. Where there are not 18 of them it is malformed.
pub fn read_sheet(sheet: &[i64]) -> Result<Params, FieldError>
    ensures refused { answer_number field_number result ≡ sheet_number sheet.now }
    ensures read { IfOk result (λ p. p ≡ params_at sheet.now) }
{
    kinds::check(&sheet_kinds(), sheet)?;
    Ok(params_of(sheet))
}

// The places of a sheet, whose fields have their types.
#[tactic(auto, using(crate::proofs::Typed::typed), unfolding(crate::specs::Sheet::sheet_numbers))]
fn places_of(p: Params) -> [i64; 18]
    ensures written { result ≡ sheet_numbers p }
    ensures typed { TypedSheet p }
{
    [
        i64::from(p.taps),
        i64::from(p.nco_step),
        i64::from(p.period_nominal),
        i64::from(p.period_min),
        i64::from(p.period_max),
        i64::from(p.ted_shift),
        i64::from(p.kp),
        i64::from(p.kp_shift),
        i64::from(p.ki),
        i64::from(p.ki_shift),
        i64::from(p.integrator_max),
        i64::from(p.agc_init),
        i64::from(p.agc_target),
        i64::from(p.agc_shift),
        i64::from(p.bits),
        i64::from(p.q_shift),
        i64::from(p.block_log2),
        i64::from(p.delay),
    ]
}

// Writes the fields, which have their types, to the first 18 places.
pub(crate) fn write(p: Params, sheet: &mut [i64])
    requires { 18 ≤ length sheet.old }
    ensures written { sheet.new ≡ sheet_numbers p ++ drop 18 sheet.old }
    ensures typed { TypedSheet p }
{
    sheet[..18].copy_from_slice(&places_of(p));
}

// Writes the fields to the first 18 places. What it leaves there is a sheet that can be read.
#[tactic(auto, unfolding(crate::specs::Sheet::sheet_written))]
pub fn write_sheet(p: Params, sheet: &mut [i64]) -> Result<(), PlacesError>
    ensures written { record { number = answer_number places_refusal result; places = sheet.new } ≡ sheet_written p sheet.old }
    ensures fits { IfOk result (λ done. sheet_number (take 18 sheet.new) ≡ 0) }
{
    if sheet.len() < 18 {
        return Err(PlacesError::Short);
    }
    write(p, sheet);
    Ok(())
}
