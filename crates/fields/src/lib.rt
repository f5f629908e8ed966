// The 18 fields of a sheet without its banks, as a state holds them: what stands there where there is no sheet, and whether two sheets are the same.
#![tactic(auto)]

ghost use Rattle.std.specs.Prelude.{◌≡◌};
ghost use Rattle.fields.specs.Fields.{no_fields, same_fields};

use params::Params;

// What stands in place of a sheet where there is none: 0 in every field. The derived default has that value too; this has a contract that names `no_fields`,
// as callers' contracts do.
pub fn none() -> Params
    ensures { result ≡ no_fields }
{
    Params::default()
}

// Whether two sheets have the same 18 fields. All are compared, whatever the first ones say: sheets are the same nearly always, and without branches that is
// the shorter way. The derived == of Params has a branch for each field, and takes a fifth longer.
#[tactic(auto, using(crate::proofs::Same::same_bits), unfolding(crate::specs::Fields::same_fields))]
pub fn are_same(p: Params, q: Params) -> bool
    ensures { result ≡ same_fields p q }
{
    (p.taps == q.taps)
        & (p.nco_step == q.nco_step)
        & (p.period_nominal == q.period_nominal)
        & (p.period_min == q.period_min)
        & (p.period_max == q.period_max)
        & (p.ted_shift == q.ted_shift)
        & (p.kp == q.kp)
        & (p.kp_shift == q.kp_shift)
        & (p.ki == q.ki)
        & (p.ki_shift == q.ki_shift)
        & (p.integrator_max == q.integrator_max)
        & (p.agc_init == q.agc_init)
        & (p.agc_target == q.agc_target)
        & (p.agc_shift == q.agc_shift)
        & (p.bits == q.bits)
        & (p.q_shift == q.q_shift)
        & (p.block_log2 == q.block_log2)
        & (p.delay == q.delay)
}
