// Floats as whole numbers: cut toward zero or rounded, and held to an integer type.
//
// The language casts a float only where nothing is lost. These casts lose what Rust's lose: the fraction, what lies past an end of the type, and a NaN, which
// becomes 0. Every function here is total. The library has such a cast for each type, and a name for each: a function over the type would need a trait of its
// own to choose the call.
#![tactic(auto)]

ghost use Rattle.std.specs.Prelude.{◌≡◌};
ghost use Rattle.std.specs.Float.Ieee.{to_unsigned, to_signed};
ghost use Rattle.floats.specs.Whole.{round_away};

// `x.round() as i64`, ties away from zero. From 2^62 on in size there is no fraction to round; a NaN is not between the ends, and is cast too. Below that,
// twice x is exact, and without its fraction it is odd where x goes one farther than its own whole part. Adding a half to x instead would round the sum: just
// below a half, to 1. (The library's `round` in place of this takes some thirty instructions more, and each float of a caller's samples comes through here.)
pub fn round_i64(x: f64) -> i64
    ensures { result ≡ to_signed 63 (round_away x) }
{
    if x > -4611686018427387904.0 && x < 4611686018427387904.0 {
        let twice = std::num::truncating_f64_to_i64(x + x);
        return twice / 2 + twice % 2;
    }
    std::num::saturating_f64_to_i64(x)
}

// `x as i32`.
pub fn cut_i32(x: f64) -> i32
    ensures { result ≡ to_signed 31 x }
{
    std::num::saturating_f64_to_i32(x)
}

// `x as u32`.
pub fn cut_u32(x: f64) -> u32
    ensures { result ≡ to_unsigned 32 x }
{
    std::num::saturating_f64_to_u32(x)
}

// `x.round() as u32`, ties away from zero.
pub fn round_u32(x: f64) -> u32
    ensures { result ≡ to_unsigned 32 (round_away x) }
{
    std::num::saturating_f64_to_u32(x.round())
}
