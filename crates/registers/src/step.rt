// A symbol's step on the six registers: they change as one group, whatever they hold (RULES 3.11).
ghost use Rattle.std.specs.Prelude.{◌≡◌, ◌^◌, ◌%◌, ◌≤◌, ◌<◌, is_some, nat_abs, ◌&&◌, pos, neg_ℤ, ◌*ℤ◌};
ghost use Rattle.std.specs.Int.Signed.{le_z, lt_z};
ghost use Rattle.arith.specs.Arith.{within};
ghost use Rattle.registers.specs.Step.{is_due, gain_of, can_make_symbol, found, left, errors_of, after_symbol};

use crate::correct::integrator_end;
use crate::{Pending, Registers};
use params::Params;

// Whether errors are due where so many wait: the errors of a symbol are applied at the symbol that comes `delay` later.
pub fn is_due(delay: u8, waiting: usize) -> bool
    ensures { result ≡ is_due delay waiting }
{
    waiting == usize::from(delay)
}

// Whether a symbol falls due before the next sample.
fn falls_due(t: i64) -> bool
    ensures { result ≡ (le_z (pos 0) t && lt_z t (pos 16777216)) }
{
    (0..0x100_0000).contains(&t)
}

// Whether the integrator stands between the ends of a sheet.
pub fn is_held(v: i64, integrator_max: i32) -> bool
    ensures { result ≡ within (neg_ℤ (integrator_max *ℤ pos 65536)) (integrator_max *ℤ pos 65536) v }
{
    let end = integrator_end(integrator_max);
    // Two comparisons, which the tactics prove alone; of `(-end..=end).contains(&v)` they do not, with the laws on both ends too.
    -end <= v && v <= end
}

impl Registers {
    // The gain. Of an accumulator of more than 24 bits, which no accepted state has, its lower 16 bits are left.
    pub fn gain(self) -> u16
        ensures { result ≡ gain_of self % 65536 }
    {
        (self.gain_acc / 256 % 65536) as u16
    }

    // Whether a symbol can be made: one falls due, v stands within its ends, and the count has room.
    #[tactic(auto, unfolding(crate::specs::Step::can_make_symbol))]
    fn can_make_symbol(self, p: Params) -> bool
        ensures { result ≡ can_make_symbol p self }
    {
        // By `&`, since no test needs another one first: by `&&` a block takes 2% longer.
        falls_due(self.t_acc) & is_held(self.v, p.integrator_max) & (self.symbols < u64::MAX)
    }

    // Applies the errors that are due, if any are.
    #[tactic(auto, unfolding(crate::specs::Step::found))]
    fn apply(&mut self, p: Params, due: Option<Pending>)
        requires { nat_abs self.old.v ≤ 2 ^ 61 }
        ensures { self.new ≡ found p self.old (is_some due) (errors_of due) }
    {
        if let Some(w) = due {
            self.correct(p, w);
        }
    }

    // The registers as a symbol leaves them: the next one is a period on, less the sample that goes by, and one more is counted.
    #[tactic(auto, unfolding(crate::specs::Step::left))]
    fn leave(&mut self)
        requires { (nat_abs self.old.t_acc ≤ 2 ^ 61) × (self.old.symbols < 18446744073709551615) }
        ensures { self.new ≡ left self.old }
    {
        self.t_acc = self.t_acc + i64::from(self.period) - 0x100_0000;
        self.symbols += 1;
    }

    // Changes the registers as a symbol does, by the errors that are `due` if any are, and answers true.
    // Where no symbol can be made of them it leaves them and answers false.
    // The rules give a step on any registers, and so it answers whether a symbol can be made of these; a caller that knows that one can need not look.
    #[tactic(auto, unfolding(crate::specs::Step::after_symbol))]
    pub fn step(&mut self, p: Params, due: Option<Pending>) -> bool
        ensures { record { registers = self.new; made = result } ≡ after_symbol p self.old (is_some due) (errors_of due) }
    {
        if !self.can_make_symbol(p) {
            return false;
        }
        self.apply(p, due);
        self.leave();
        true
    }
}
