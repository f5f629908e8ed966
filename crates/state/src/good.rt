// Whether a state is good under a sheet: its registers, its places and its counts are within their bounds.
ghost use Rattle.std.specs.Prelude.{◌≡◌, ◌&&◌, pos, neg_ℤ, ◌*ℤ◌, nat_le, nat_lt, ◌==◌, min};
ghost use Rattle.std.specs.Int.Signed.{le_z, lt_z};
ghost use Rattle.arith.specs.Arith.{within};
ghost use Rattle.registers.specs.Correct.{integrator_end};
ghost use Rattle.state.specs.Start.{ring_places};
ghost use Rattle.state.specs.Check.{good_state};

use crate::{Frontend, RING_PLACES};
use params::Params;
use registers::Registers;

impl Frontend {
    // Whether the state is good under a sheet (RULES 4.1), be that the held one or another.
    #[tactic(auto, using(crate::proofs::Going::good_parts))]
    pub fn is_good(&self, p: Params) -> bool
        ensures { result ≡ good_state p self.now }
    {
        self.head < p.taps as usize && are_good(&self.registers, &p) && self.is_counted(p.delay)
    }

    // Whether as many errors wait as the delay wants, and no more symbols than samples were counted.
    fn is_counted(&self, delay: u8) -> bool
        ensures { result ≡ (self.now.waiting == min self.now.registers.symbols delay && nat_lt self.now.oldest ring_places && nat_le self.now.registers.symbols self.now.samples) }
    {
        let symbols = self.registers.symbols;
        self.waiting as u64 == symbols.min(u64::from(delay))
            && self.oldest < RING_PLACES
            && symbols <= self.samples
    }
}

// Whether a symbol is due, and within four samples.
fn is_soon(t: i64) -> bool
    ensures { result ≡ (le_z (pos 0) t && lt_z t (pos 67108864)) }
{
    (0..0x400_0000).contains(&t)
}

// Whether the period and the gain are within the bounds of a sheet.
fn is_tracking(r: &Registers, p: &Params) -> bool
    ensures { result ≡ (nat_le p.now.period_min r.now.period && nat_le r.now.period p.now.period_max && nat_le r.now.gain_acc 16777215) }
{
    (p.period_min..=p.period_max).contains(&r.period) && r.gain_acc <= 0xff_ffff
}

// Whether the registers are within their bounds under a sheet.
fn are_good(r: &Registers, p: &Params) -> bool
    ensures { result ≡ (le_z (pos 0) r.now.t_acc && lt_z r.now.t_acc (pos 67108864) && within (neg_ℤ (integrator_end p.now)) (integrator_end p.now) r.now.v
        && nat_le p.now.period_min r.now.period && nat_le r.now.period p.now.period_max && nat_le r.now.gain_acc 16777215) }
{
    is_soon(r.t_acc) && registers::is_held(r.v, p.integrator_max) && is_tracking(r, p)
}
