// The float steps from a design to its registers, one function for each register. Every operation is rounded, so their order is part of the answer.
#![tactic(auto)]

ghost use Rattle.std.specs.Prelude.{◌≡◌};
ghost use Rattle.steps.specs.Steps.{period_nominal, at_least_min, period_min, period_max, integrator_max, nco_step, agc_target};

#[tactic(auto, using(crate::proofs::Literals::literals), unfolding(crate::specs::Steps::period_nominal))]
pub fn period_nominal(sps: f64) -> u32
    ensures { result ≡ period_nominal sps }
{
    floats::round_u32(sps * 16777216.0)
}

// The larger of x and 1.0625. Not `x.max(1.0625)`: of two floats that compare equal the library may answer either, and the rule says which.
#[tactic(auto, using(crate::proofs::Literals::literals), unfolding(crate::specs::Steps::at_least_min))]
fn at_least_min(x: f64) -> f64
    ensures { result ≡ at_least_min x }
{
    if x > 1.0625 { x } else { 1.0625 }
}

#[tactic(auto, using(crate::proofs::Literals::literals), unfolding(crate::specs::Steps::period_min))]
pub fn period_min(sps: f64) -> u32
    ensures { result ≡ period_min sps }
{
    floats::cut_u32(at_least_min(sps * 0.98) * 16777216.0)
}

#[tactic(auto, using(crate::proofs::Literals::literals), unfolding(crate::specs::Steps::period_max))]
pub fn period_max(sps: f64) -> u32
    ensures { result ≡ period_max sps }
{
    floats::cut_u32(sps * 1.02 * 16777216.0)
}

#[tactic(auto, using(crate::proofs::Literals::literals), unfolding(crate::specs::Steps::integrator_max))]
pub fn integrator_max(sps: f64) -> i32
    ensures { result ≡ integrator_max sps }
{
    floats::cut_i32(sps * 0.01 * 16777216.0)
}

// The mixer turns against the carrier's offset. A turn more or less is the same, so the step is taken modulo 2^32.
#[tactic(auto, using(crate::proofs::Literals::literals), unfolding(crate::specs::Steps::nco_step))]
pub fn nco_step(carrier_offset: f64, sample_rate: f64) -> i32
    ensures { result ≡ nco_step carrier_offset sample_rate }
{
    arith::wrap_i32(floats::round_i64(-carrier_offset / sample_rate * 4294967296.0))
}

#[tactic(auto, using(crate::proofs::Literals::literals), unfolding(crate::specs::Steps::agc_target))]
pub fn agc_target(agc_rms: f64) -> u32
    ensures { result ≡ agc_target agc_rms }
{
    let level = agc_rms * 32768.0;
    floats::round_u32((level * level) / 4096.0)
}
