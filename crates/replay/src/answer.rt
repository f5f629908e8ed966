// Refusals in the numbers that a row has for them: a refusal's number (docs/REFUSALS.md) and what it carries, or 0.
ghost use Rattle.std.specs.Prelude.{◌≡◌};
ghost use Rattle.replay.specs.Answer.{of_error, is_answer};

use params::ParamError;

// A refusal by its number: alone, with a value that it carries, or with three.
#[derive(Clone, Copy, PartialEq, Eq, Debug)]
pub enum Answer {
    Alone(u32),
    One(u32, i64),
    Three(u32, i64, i64, i64),
}

impl From<ParamError> for Answer {
    ghost use Rattle.std.specs.Prelude.{◌≡◌};
    ghost use Rattle.replay.specs.Answer.{of_error};

    ghost from_gives = { λ e a. a ≡ of_error e };

    #[tactic(auto, unfolding(crate::specs::Answer::signed_bits))]
    fn from(e: ParamError) -> Answer {
        let number = e.number();
        match e {
            ParamError::Coefficient { bank, phase, value } => Answer::Three(
                number,
                i64::from(bank as u8),
                (phase as u64).cast_signed(),
                i64::from(value),
            ),
            ParamError::CoefficientSum { bank, phase, sum } => Answer::Three(
                number,
                i64::from(bank as u8),
                (phase as u64).cast_signed(),
                sum.cast_signed(),
            ),
            ParamError::DetectorTaps { bank } => Answer::One(number, i64::from(bank as u8)),
            ParamError::Range { field } => Answer::One(number, i64::from(field as u8)),
            _ => Answer::Alone(number),
        }
    }
}

impl Answer {
    // Whether these are the answer's numbers, no fewer and no more.
    pub fn is(self, numbers: &[i64]) -> bool
        ensures { result ≡ is_answer self numbers.now }
    {
        match self {
            Answer::Alone(number) => numbers == [i64::from(number)].as_slice(),
            Answer::One(number, a) => numbers == [i64::from(number), a].as_slice(),
            Answer::Three(number, a, b, c) => numbers == [i64::from(number), a, b, c].as_slice(),
        }
    }
}
