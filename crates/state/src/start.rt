// Starting: the state before the first sample, and the zeros of a start that is refused.
ghost use Rattle.std.specs.Prelude.{◌≡◌};
ghost use Rattle.state.specs.Start.{fresh, start_of, started};

use crate::{Frontend, Pair, RING_PLACES};
use params::{ParamError, Params, Sheet};
use registers::{Pending, Registers};

impl Frontend {
    // The state before the first sample, under a sheet of these fields. Of no fields, `fields::none()`, it is zeros throughout.
    #[tactic(auto, unfolding(crate::specs::Start::fresh))]
    pub fn fresh(p: Params) -> Frontend
        ensures { result ≡ fresh p }
    {
        let registers = Registers {
            period: p.period_nominal,
            gain_acc: p.agc_init,
            ..Registers::default()
        };
        Frontend {
            params: p,
            registers,
            line: [Pair::default(); 64],
            head: 0,
            pending: [Pending::default(); RING_PLACES],
            oldest: 0,
            waiting: 0,
            samples: 0,
        }
    }

    // Starting (RULES 3.1).
    #[tactic(auto, using(params::proofs::Accepted::judging), unfolding(crate::specs::Start::start_of))]
    pub fn new(sheet: &Sheet<'_>) -> Result<Frontend, ParamError>
        ensures { started result ≡ start_of sheet.now }
    {
        sheet.validate()?;
        Ok(Frontend::fresh(sheet.params))
    }
}

// Zeros throughout, the held sheet's fields among them: what a refused start stands for, as `Frontend::new(&sheet).unwrap_or_default()` gives it.
impl Default for Frontend {
    ghost use Rattle.fields.specs.Fields.{no_fields};

    ghost is_default = { λ f. f ≡ fresh no_fields };

    fn default() -> Frontend {
        Frontend::fresh(fields::none())
    }
}
