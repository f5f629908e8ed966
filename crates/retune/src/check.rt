// What a state has against an accepted sheet: 29 of another delay than the held one, 9, and 27, in this order.
ghost use Rattle.std.specs.Prelude.{◌≡◌};
ghost use Rattle.params.specs.Refusal.{answer_refusal, first_of};
ghost use Rattle.retune.specs.Refusal.{retune_refusal};
ghost use Rattle.retune.specs.Retune.{held_faults};

use crate::RetuneError;
use params::{ParamError, Params};
use state::Frontend;

#[tactic(auto, using(params::proofs::Faults::one_by_one), unfolding(crate::specs::Retune::held_faults))]
pub(crate) fn check_held(f: &Frontend, p: Params) -> Result<(), RetuneError>
    ensures { answer_refusal retune_refusal result ≡ first_of (held_faults p f.now) }
{
    if p.delay != f.params.delay {
        return Err(RetuneError::Params(ParamError::Delay));
    }
    if !f.is_good(p) {
        return Err(RetuneError::State);
    }
    if p.taps != f.params.taps {
        return Err(RetuneError::Taps);
    }
    Ok(())
}
