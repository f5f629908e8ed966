// The answers of calls in the numbers that a row has for them: a refusal's number (RULES 1.4, 4.1, 4.4) and what it carries, or 0.
use params::ParamError;
use replay::answer::Answer;
use retune::RetuneError;
use state::FrontendError;

// Why a call is refused.
pub(crate) trait Refusal {
    fn answer(&self) -> Answer;
}

impl Refusal for ParamError {
    fn answer(&self) -> Answer {
        Answer::from(*self)
    }
}

// This and the next have the same words on two enums, each of which has its own `Params`: a trait for what they share would want an impl for either again.
impl Refusal for FrontendError {
    fn answer(&self) -> Answer {
        match self {
            FrontendError::Params(e) => Answer::from(*e),
            _ => Answer::Alone(self.number()),
        }
    }
}

impl Refusal for RetuneError {
    fn answer(&self) -> Answer {
        match self {
            RetuneError::Params(e) => Answer::from(*e),
            _ => Answer::Alone(self.number()),
        }
    }
}

// Whether these are the numbers of what a call answers beside its values.
pub(crate) fn is<T, E: Refusal>(answer: &Result<T, E>, numbers: &[i64]) -> bool {
    match answer {
        Ok(_) => Answer::Alone(0).is(numbers),
        Err(e) => e.answer().is(numbers),
    }
}
