// Why a call is refused: what any of the crates below may refuse, each under its own name.
ghost use Rattle.std.specs.Prelude.{◌≡◌};
ghost use Rattle.calls.specs.Refusal.{call_number};
ghost use Rattle.calls.specs.declared.refusal.CallError.{CallError};

use design::SheetError;
use kinds::FieldError;
use offset::OffsetError;
use params::ParamError;
use places::PlacesError;
use retune::RetuneError;
use state::FrontendError;

#[derive(Clone, Copy, PartialEq, Debug)]
pub enum CallError {
    Fields(FieldError),
    Params(ParamError),
    Frontend(FrontendError),
    Retune(RetuneError),
    Offset(OffsetError),
    Design(SheetError),
    Places(PlacesError),
}

// Seven impls by hand: the gate refuses an impl that a macro of the repository writes.

impl From<FieldError> for CallError {
    ghost from_gives = { λ e f. f ≡ CallError.Fields e };

    fn from(error: FieldError) -> CallError {
        CallError::Fields(error)
    }
}

impl From<ParamError> for CallError {
    ghost from_gives = { λ e f. f ≡ CallError.Params e };

    fn from(error: ParamError) -> CallError {
        CallError::Params(error)
    }
}

impl From<FrontendError> for CallError {
    ghost from_gives = { λ e f. f ≡ CallError.Frontend e };

    fn from(error: FrontendError) -> CallError {
        CallError::Frontend(error)
    }
}

impl From<RetuneError> for CallError {
    ghost from_gives = { λ e f. f ≡ CallError.Retune e };

    fn from(error: RetuneError) -> CallError {
        CallError::Retune(error)
    }
}

impl From<OffsetError> for CallError {
    ghost from_gives = { λ e f. f ≡ CallError.Offset e };

    fn from(error: OffsetError) -> CallError {
        CallError::Offset(error)
    }
}

impl From<SheetError> for CallError {
    ghost from_gives = { λ e f. f ≡ CallError.Design e };

    fn from(error: SheetError) -> CallError {
        CallError::Design(error)
    }
}

impl From<PlacesError> for CallError {
    ghost from_gives = { λ e f. f ≡ CallError.Places e };

    fn from(error: PlacesError) -> CallError {
        CallError::Places(error)
    }
}

// C has no enums: there a refusal is its number alone.
impl CallError {
    pub fn number(self) -> u32
        ensures { result ≡ call_number self }
    {
        match self {
            CallError::Fields(e) => e.number(),
            CallError::Params(e) => e.number(),
            CallError::Frontend(e) => e.number(),
            CallError::Retune(e) => e.number(),
            CallError::Offset(e) => e.number(),
            CallError::Design(e) => e.number(),
            CallError::Places(e) => e.number(),
        }
    }
}
