// The refusals of a retune: those of judging among them, and each by its number.
ghost use Rattle.std.specs.Prelude.{◌≡◌};
ghost use Rattle.retune.specs.Refusal.{retune_refusal};

use crate::RetuneError;
use params::ParamError;

impl From<ParamError> for RetuneError {
    ghost use Rattle.retune.specs.declared.RetuneError.{RetuneError};

    ghost from_gives = { λ e r. r ≡ RetuneError.Params e };

    fn from(e: ParamError) -> RetuneError {
        RetuneError::Params(e)
    }
}

impl RetuneError {
    // Its number, since text and C take nothing else of it.
    pub fn number(self) -> u32
        ensures { result ≡ (retune_refusal self).number }
    {
        match self {
            RetuneError::Params(e) => e.number(),
            RetuneError::State => 9,
            RetuneError::Taps => 27,
            RetuneError::Ticket => 28,
        }
    }
}
