// The loop: how the errors of one symbol move the period and the gain (RULES 3.6).
ghost use Rattle.std.specs.Prelude.{◌≡◌, ◌^◌, ◌≤◌, nat_abs, ◌*ℤ◌, pos};
ghost use Rattle.arith.specs.Arith.{round_shift};
ghost use Rattle.registers.specs.Correct.{next_v, next_period, next_gain, corrected};

use crate::{Pending, Registers};
use params::Params;

// An error times a gain of `gain` / 2^shift.
fn scaled(gain: i16, e: i32, shift: u8) -> i64
    ensures { result ≡ round_shift (gain *ℤ e) shift }
{
    arith::round_product(gain, e, u32::from(shift))
}

// The furthest that the integrator goes to either side.
pub(crate) fn integrator_end(integrator_max: i32) -> i64
    ensures { result ≡ integrator_max *ℤ pos 65536 }
{
    i64::from(integrator_max) * 65536
}

// The integrator, moved.
fn next_v(p: Params, v: i64, e: i32) -> i64
    requires { nat_abs v ≤ 2 ^ 61 }
    ensures { result ≡ next_v p v e }
{
    let end = integrator_end(p.integrator_max);
    arith::clamp(v + scaled(p.ki, e, p.ki_shift), -end, end)
}

// The period, by the integrator's new value.
fn next_period(p: Params, v: i64, e: i32) -> u32
    ensures { result ≡ next_period p v e }
{
    let base = i64::from(p.period_nominal) + (v >> 16);
    arith::clamp(
        base + scaled(p.kp, e, p.kp_shift),
        i64::from(p.period_min),
        i64::from(p.period_max),
    ) as u32
}

// The gain accumulator, moved.
fn next_gain(p: Params, acc: u32, err: i32) -> u32
    ensures { result ≡ next_gain p acc err }
{
    arith::clamp(
        i64::from(acc) + arith::shift_right(i64::from(err), u32::from(p.agc_shift)),
        0,
        0xff_ffff,
    ) as u32
}

impl Registers {
    // Applies the errors of one symbol.
    #[tactic(auto, unfolding(crate::specs::Correct::corrected))]
    pub(crate) fn correct(&mut self, p: Params, w: Pending)
        requires { nat_abs self.old.v ≤ 2 ^ 61 }
        ensures { self.new ≡ corrected p self.old w }
    {
        self.v = next_v(p, self.v, w.e);
        self.period = next_period(p, self.v, w.e);
        self.gain_acc = next_gain(p, self.gain_acc, w.err);
    }
}
