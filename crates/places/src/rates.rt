// A design as places: its five rates, and eight fields, of which the last five are the gains that it leaves open. Rates are sample_rate, symbol_rate,
// carrier_offset, trim and agc_rms; fields are taps, bits, block_log2, kp, kp_shift, ki, ki_shift and q_shift.
ghost use Rattle.std.specs.Prelude.{◌≡◌, length, IfOk};
ghost use Rattle.kinds.specs.Answer.{answer_number};
ghost use Rattle.kinds.specs.Kinds.{places_number, field_number};
ghost use Rattle.places.specs.Rates.{design_kinds, design_number, design_at, gains_at};

use crate::numbers::number_at;
use design::{Design, Gains};
use kinds::{FieldError, Kind};

// The types of the fields.
fn design_kinds() -> [Kind; 8]
    ensures { result ≡ design_kinds }
{
    [
        Kind::U32,
        Kind::U8,
        Kind::U8,
        Kind::I16,
        Kind::U8,
        Kind::I16,
        Kind::U8,
        Kind::U8,
    ]
}

// The design of rates and fields that can be read.
#[tactic(auto, using(crate::proofs::Readable::fields_at), unfolding(crate::specs::Rates::design_at))]
fn design_of(rates: &[f64], fields: &[i64]) -> Design
    requires long { length rates.now ≡ 5 }
    requires kinds { places_number design_kinds fields.now ≡ 0 }
    ensures { result ≡ design_at rates.now fields.now }
{
    Design {
        sample_rate: rates[0],
        symbol_rate: rates[1],
        carrier_offset: rates[2],
        trim: rates[3],
        agc_rms: rates[4],
        taps: number_at(fields, 0),
        bits: number_at(fields, 1),
        block_log2: number_at(fields, 2),
    }
}

// The gains beside it.
#[tactic(auto, using(crate::proofs::Readable::fields_at), unfolding(crate::specs::Rates::gains_at))]
fn gains_of(fields: &[i64]) -> Gains
    requires { places_number design_kinds fields.now ≡ 0 }
    ensures { result ≡ gains_at fields.now }
{
    Gains {
        kp: number_at(fields, 3),
        kp_shift: number_at(fields, 4),
        ki: number_at(fields, 5),
        ki_shift: number_at(fields, 6),
        q_shift: number_at(fields, 7),
    }
}

// The design of these rates and fields with its gains. Another number of either is malformed; no rate is out of range.
#[tactic(auto, unfolding(crate::specs::Rates::design_number))]
pub fn read_design(rates: &[f64], fields: &[i64]) -> Result<(Design, Gains), FieldError>
    ensures refused { answer_number field_number result ≡ design_number rates.now fields.now }
    ensures read { IfOk result (λ d. (d.0 ≡ design_at rates.now fields.now) × (d.1 ≡ gains_at fields.now)) }
{
    if rates.len() != 5 {
        return Err(FieldError::Malformed);
    }
    kinds::check(&design_kinds(), fields)?;
    Ok((design_of(rates, fields), gains_of(fields)))
}
