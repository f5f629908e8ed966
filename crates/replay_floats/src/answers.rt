// The answers of calls in the numbers that a row has for them. A float is the number that has its bits, and every NaN is the same.
use design::{DesignError, DesignRegisters, SheetError};
use params::Params;
use replay::answer::Answer;
use replay::bits;

pub(crate) fn float_of(number: i64) -> f64 {
    bits::f64_from_bits(number.cast_unsigned())
}

// Whether a number stands for this float.
fn is_float(number: i64, x: f64) -> bool {
    bits::f64_to_bits(float_of(number)) == bits::f64_to_bits(x)
}

// Whether these are the numbers of a refusal that carries a float.
fn is_carried(number: u32, x: f64, numbers: &[i64]) -> bool {
    match numbers {
        [first, carried] => *first == i64::from(number) && is_float(*carried, x),
        _ => false,
    }
}

fn is_refusal(e: DesignError, numbers: &[i64]) -> bool {
    let number = e.number();
    match e {
        DesignError::SamplesPerSymbol { sps } => is_carried(number, sps, numbers),
        DesignError::Trim { trim } => is_carried(number, trim, numbers),
        _ => Answer::Alone(number).is(numbers),
    }
}

// Whether these are 0 and the registers, in the order of a sheet's fields.
fn are_registers(r: DesignRegisters, numbers: &[i64]) -> bool {
    numbers
        == [
            0,
            i64::from(r.taps),
            i64::from(r.nco_step),
            i64::from(r.period_nominal),
            i64::from(r.period_min),
            i64::from(r.period_max),
            i64::from(r.ted_shift),
            i64::from(r.integrator_max),
            i64::from(r.agc_init),
            i64::from(r.agc_target),
            i64::from(r.agc_shift),
            i64::from(r.bits),
            i64::from(r.block_log2),
            i64::from(r.delay),
        ]
        .as_slice()
}

// Whether these are 0 and a sheet's 18 fields.
fn are_fields(p: Params, numbers: &[i64]) -> bool {
    let mut told = [0; 19];
    places::write_sheet(p, &mut told[1..]).is_ok() && numbers == told.as_slice()
}

// Whether a number is what the component with this bit pattern becomes.
fn is_component(pattern: i64, number: i64) -> bool {
    number == i64::from(input::component(bits::f32_from_bits(arith::wrap_u32(pattern))))
}

// Whether these are the components of a float sample, and what they become.
pub(crate) fn is_sample(numbers: &[i64]) -> bool {
    match numbers {
        [i, q, first, second] => is_component(*i, *first) && is_component(*q, *second),
        _ => false,
    }
}

pub(crate) fn is_design(answer: Result<DesignRegisters, DesignError>, numbers: &[i64]) -> bool {
    match answer {
        Ok(r) => are_registers(r, numbers),
        Err(e) => is_refusal(e, numbers),
    }
}

pub(crate) fn is_sheet(answer: Result<Params, SheetError>, numbers: &[i64]) -> bool {
    match answer {
        Ok(p) => are_fields(p, numbers),
        Err(SheetError::Design(e)) => is_refusal(e, numbers),
        Err(SheetError::Params(e)) => Answer::from(e).is(numbers),
    }
}
