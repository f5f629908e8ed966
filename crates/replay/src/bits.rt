// Floats by their bits, as rows have them. Two widths have a function each: a trait for them would have both bodies again, and their numbers as its members.
ghost use Rattle.std.specs.Prelude.{◌≡◌};
ghost use Rattle.std.specs.Float.{binary32, binary64};
ghost use Rattle.std.specs.Float.Ieee.{of_bits, to_bits};

// The f32 of a bit pattern. The language reads none of a NaN's patterns, which all stand for the same here.
#[tactic(auto, using(crate::proofs::Patterns::nan_above, crate::proofs::Patterns::no_nan_below))]
pub fn f32_from_bits(bits: u32) -> f32
    ensures { result ≡ of_bits binary32 bits }
{
    if 0x7f80_0000 < bits % 0x8000_0000 {
        return f32::NAN;
    }
    f32::from_bits(bits)
}

// The f64 of a bit pattern.
#[tactic(auto, using(crate::proofs::Patterns::nan_above, crate::proofs::Patterns::no_nan_below))]
pub fn f64_from_bits(bits: u64) -> f64
    ensures { result ≡ of_bits binary64 bits }
{
    if 0x7ff0_0000_0000_0000 < bits % 0x8000_0000_0000_0000 {
        return f64::NAN;
    }
    f64::from_bits(bits)
}

// The bit pattern of an f64; one of them for every NaN.
#[tactic(auto, using(crate::proofs::Patterns::nan_bits_of))]
pub fn f64_to_bits(x: f64) -> u64
    ensures { result ≡ to_bits binary64 x }
{
    if x.is_nan() {
        return 0x7ff8_0000_0000_0000;
    }
    x.to_bits()
}
