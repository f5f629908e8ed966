// The numbers of refusals.
//
// Text and C have no enums: there a refusal is its number alone, and 0 is that of nothing refused. What else it carries does not cross.
ghost use Rattle.std.specs.Prelude.{◌≡◌};
ghost use Rattle.params.specs.Refusal.{error_refusal, faults_of, unless};

use crate::ParamError;

impl ParamError {
    pub fn number(self) -> u32
        ensures { result ≡ (error_refusal self).number }
    {
        match self {
            ParamError::Taps => 1,
            ParamError::BankLength => 2,
            ParamError::Coefficient { .. } => 3,
            ParamError::CoefficientSum { .. } => 4,
            ParamError::DetectorTaps { .. } => 5,
            ParamError::PeriodBounds => 6,
            ParamError::Range { .. } => 7,
            ParamError::AgcShift => 8,
            ParamError::Delay => 29,
        }
    }
}

// An error where a rule is broken.
pub(crate) fn require(kept: bool, error: ParamError) -> Result<(), ParamError>
    ensures { faults_of error_refusal result ≡ unless kept (error_refusal error) }
{
    if kept { Ok(()) } else { Err(error) }
}
