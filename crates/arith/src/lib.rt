// The arithmetic of the path: rounding, quotients, clamps, shifts, reductions and narrower types of signed integers.
//
// Every function here is total. It answers for each input what its definition over ℤ says (specs/Arith.antt), and no caller owes it anything.
#![tactic(auto)]

ghost use Rattle.std.specs.Prelude.{◌≡◌, not, ◌^◌, ◌*ℤ◌};
ghost use Rattle.std.specs.Int.Signed.{shr_z};
ghost use Rattle.arith.specs.Arith.{round_shift, clamp_z, sat16_changes, saturated_to, mod_z, wrap_i32, nearest_away, narrow_i16, narrow_i32};

// round(v / 2^s), a half upward; v for s = 0. The last bit that is shifted out decides, so it is
// enough to look at v a place before: that number less its half, which cannot overflow.
pub fn round_shift(v: i64, s: u32) -> i64
    ensures { result ≡ round_shift v s }
{
    match s {
        0 => v,
        1..=63 => {
            let twice = v >> (s - 1);
            twice - (twice >> 1)
        }
        _ => 0,
    }
}

// The same of a product of 16 bits by 32. It is far from the ends of 64 bits, so half of 2^s is added before the shift, and no case is made of s = 0.
pub fn round_product(a: i16, b: i32, s: u32) -> i64
    ensures { result ≡ round_shift (a *ℤ b) s }
{
    if 62 < s {
        return 0;
    }
    let half: i64 = (1 << s) >> 1;
    (i64::from(a) * i64::from(b) + half) >> s
}

// v / 2^s, rounded down. From 63 places on only the sign is left.
pub fn shift_right(v: i64, s: u32) -> i64
    ensures { result ≡ shr_z v (2 ^ s) }
{
    v >> s.min(63)
}

// n / m, rounded to the nearest whole number, ties away from zero; by 0 it is 0. Both quotients are cut toward zero, and twice the rest holds m once where at
// least a half is left.
pub fn divide_nearest(n: i64, m: u32) -> i64
    ensures { result ≡ nearest_away n m }
{
    if m == 0 {
        return 0;
    }
    let d = i64::from(m);
    n / d + 2 * (n % d) / d
}

// v, held between lo and hi: the lower end first, so that there is an answer where they are not in order, for which the library's method has none.
#[tactic(auto, unfolding(crate::specs::Arith::clamp_z))]
pub fn clamp(v: i64, lo: i64, hi: i64) -> i64
    ensures { result ≡ clamp_z v lo hi }
{
    if v < lo { lo } else { v.min(hi) }
}

// A number within 16 bits, and whether it is another than the one that was to be held. Every number has both, and who clips a number also counts it, so neither
// an Option nor a Result would say this.
#[derive(Clone, Copy)]
pub struct Saturated {
    pub value: i16,
    pub changed: bool,
}

// Saturate to 16 bits, and say whether that has changed the number.
pub fn sat16(v: i64) -> Saturated
    ensures { result ≡ saturated_to v }
{
    let held = v.clamp(-32768, 32767);
    Saturated {
        value: held as i16,
        changed: held != v,
    }
}

// Whether 16 bits hold v, so that sat16 leaves it as it is.
#[tactic(auto, unfolding(crate::specs::Arith::clamp_z, crate::specs::Arith::sat16_z, crate::specs::Arith::sat16_changes))]
pub fn fits_i16(v: i64) -> bool
    ensures { result ≡ not (sat16_changes v) }
{
    (-32768..=32767).contains(&v)
}

// v modulo 2^32, as 32 bits unsigned.
pub fn wrap_u32(v: i64) -> u32
    ensures { result ≡ mod_z v (2 ^ 32) }
{
    v.rem_euclid(0x1_0000_0000) as u32
}

// v modulo 2^32, as 32 bits signed: the upper half of the unsigned numbers stands for those below zero.
pub fn wrap_i32(v: i64) -> i32
    ensures { result ≡ wrap_i32 v }
{
    wrap_u32(v).cast_signed()
}

// v as 16 bits signed, for a caller that has looked whether it is one. Where it is not, it is neither clipped nor wrapped: the answer is 0.
pub fn narrow_i16(v: i64) -> i16
    ensures { result ≡ narrow_i16 v }
{
    i16::try_from(v).unwrap_or(0)
}

// v as 32 bits signed, likewise. Each of the two is a line of the library's: one function for both would need a bound that has a zero, and two clauses in
// place of one equation.
pub fn narrow_i32(v: i64) -> i32
    ensures { result ≡ narrow_i32 v }
{
    i32::try_from(v).unwrap_or(0)
}
