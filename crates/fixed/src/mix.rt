// The mixer: a sample is turned by the phase word, and the phase word goes on (RULES 3.3).
ghost use Rattle.std.specs.Prelude.{◌≡◌, ◌^◌, ◌≤◌, pos, ◌+ℤ◌, unsigned_abs};
ghost use Rattle.arith.specs.Arith.{mod_z};
ghost use Rattle.tables.specs.Wheel.{wheel, wheel_table};
ghost use Rattle.fixed.specs.Mix.{unscaled, mixed};

use state::Pair;

// A sum of two products with the wheel, back from its 15 fractional bits.
fn without_scale(v: i64) -> i32
    requires { unsigned_abs v ≤ 2 ^ 32 }
    ensures { result ≡ unscaled v }
{
    ((v + 16384) >> 15) as i32
}

// A sample as it is taken, in phase and in quadrature.
#[derive(Clone, Copy)]
pub(crate) struct Sample {
    pub(crate) i: i16,
    pub(crate) q: i16,
}

// The cosine wheel's table.
#[derive(Drop)]
pub(crate) struct Wheel {
    cos: &'static [i16; 1024],
    ghost is_wheel: { cos.now ≡ wheel_table },
}

impl Wheel {
    pub(crate) fn new() -> Wheel {
        Wheel {
            cos: tables::cos_table(),
        }
    }

    // The wheel at a step; past its end it begins again. So the contract of `mix` speaks of the wheel, and not of a table.
    #[tactic(auto, using(crate::proofs::Mixer::at_step))]
    fn at(&self, step: usize) -> i16
        ensures { result ≡ wheel step }
    {
        self.cos[step % 1024]
    }

    // The sample, turned. The upper ten bits of the phase word are the wheel's step, and the sine stands three quarters of a turn on.
    pub(crate) fn mix(&self, nco: u32, sample: Sample) -> Pair
        ensures { result ≡ mixed nco (record { i = sample.i; q = sample.q }) }
    {
        let step = (nco >> 22) as usize;
        let c = i64::from(self.at(step));
        let s = i64::from(self.at(step + 768));
        let x = i64::from(sample.i);
        let y = i64::from(sample.q);
        Pair {
            i: without_scale(x * c - y * s),
            q: without_scale(x * s + y * c),
        }
    }
}

// The phase word of the next sample: the step is added as 32 bits unsigned, modulo 2^32.
#[tactic(auto, using(std::proofs::lemmas::Int::ints), unfolding(arith::specs::Arith::mod_z))]
pub(crate) fn next_nco(nco: u32, step: i32) -> u32
    ensures { result ≡ mod_z (pos nco +ℤ step) (2 ^ 32) }
{
    nco.wrapping_add(arith::wrap_u32(i64::from(step)))
}
