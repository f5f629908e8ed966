// What a symbol is made of, from the filters' sums to its errors and its clips (RULES 3.8, 3.9).
ghost use Rattle.std.specs.Prelude.{◌≡◌, ◌-◌, ◌+ℤ◌, ◌*ℤ◌, min};
ghost use Rattle.symbol.specs.Make.{fitted, output_of, amplified, quantised, timing_error, gain_error, symbol_from};

use crate::{Output, Sums, Symbol};
use params::Params;

// An output, and how many of its two components were clipped.
#[derive(Clone, Copy)]
struct Fitted {
    output: Output,
    clips: u8,
}

// Both components held to 16 bits, and counted where that changes them.
fn clip(i: i64, q: i64) -> Fitted
    ensures { result ≡ fitted i q }
{
    let i = arith::sat16(i);
    let q = arith::sat16(q);
    Fitted {
        output: Output {
            i: i.value,
            q: q.value,
        },
        clips: u8::from(i.changed) + u8::from(q.changed),
    }
}

// The same, by a short way where 16 bits hold both, as they do in a signal that is set right: two tests in place of clamps and counting.
fn fit(i: i64, q: i64) -> Fitted
    ensures { result ≡ fitted i q }
{
    if arith::fits_i16(i) && arith::fits_i16(q) {
        return Fitted {
            output: Output {
                i: i as i16,
                q: q as i16,
            },
            clips: 0,
        };
    }
    clip(i, q)
}

// A filter's sums as an output.
#[tactic(auto, unfolding(crate::specs::Make::output_of))]
fn output_of(s: Sums) -> Fitted
    ensures { result ≡ output_of s }
{
    fit(arith::round_shift(s.i, 14), arith::round_shift(s.q, 14))
}

// An output times the gain.
#[tactic(auto, unfolding(crate::specs::Make::amplified))]
fn amplify(gain: u16, x: Output) -> Fitted
    ensures { result ≡ amplified gain x }
{
    fit(
        arith::round_product(x.i, i32::from(gain), 10),
        arith::round_product(x.q, i32::from(gain), 10),
    )
}

// The bits of an output component below its sign. An amplified output has 16 bits, so more than these make no difference.
// A function of its own, since the rules name that number.
fn below_sign(bits: u8) -> u32
    ensures { result ≡ min (bits - 1) 15 }
{
    u32::from(bits.saturating_sub(1).min(15))
}

// A component at the width of the output.
fn quantise(p: Params, v: i16) -> i16
    ensures { result ≡ quantised p v }
{
    let end: i64 = 1 << below_sign(p.bits);
    arith::clamp(
        arith::round_product(v, 1, u32::from(p.q_shift)),
        -end,
        end - 1,
    ) as i16
}

impl Output {
    // The product of two outputs, over both components.
    fn dot(self, other: Output) -> i64
        ensures { result ≡ self.i *ℤ other.i +ℤ self.q *ℤ other.q }
    {
        i64::from(self.i) * i64::from(other.i) + i64::from(self.q) * i64::from(other.q)
    }
}

fn timing_error(p: Params, z: Output, dz: Output) -> i32
    ensures { result ≡ timing_error p z dz }
{
    arith::clamp(
        arith::shift_right(z.dot(dz), u32::from(p.ted_shift)),
        -8388607,
        8388607,
    ) as i32
}

fn agc_error(p: Params, zk: Output) -> i32
    ensures { result ≡ gain_error p zk }
{
    arith::wrap_i32(i64::from(p.agc_target) - (zk.dot(zk) >> 12))
}

impl Symbol {
    // The symbol of this gain and period, at this sample and phase, of the sums of h, g and k.
    #[tactic(auto, unfolding(crate::specs::Make::symbol_from))]
    pub fn make(
        p: Params,
        gain: u16,
        period: u32,
        sample: u64,
        phase: u8,
        sums: [Sums; 3],
    ) -> Symbol
        ensures { result ≡ symbol_from p gain period sample phase sums }
    {
        let y = output_of(sums[0]);
        let dy = output_of(sums[1]);
        let yk = output_of(sums[2]);
        let z = amplify(gain, y.output);
        let dz = amplify(gain, dy.output);
        let zk = amplify(gain, yk.output);
        Symbol {
            sample,
            phase,
            y: y.output,
            dy: dy.output,
            yk: yk.output,
            gain,
            period,
            z: z.output,
            dz: dz.output,
            zk: zk.output,
            q: Output {
                i: quantise(p, zk.output.i),
                q: quantise(p, zk.output.q),
            },
            e: timing_error(p, z.output, dz.output),
            err: agc_error(p, zk.output),
            clips: y.clips + dy.clips + yk.clips + z.clips + dz.clips + zk.clips,
        }
    }
}
