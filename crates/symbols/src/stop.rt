// Why the program stops.
use state::FrontendError;

#[derive(Clone, Copy, PartialEq, Eq, Debug)]
pub(crate) enum Stop {
    // The input is at its end, and all of it was taken.
    End,
    // It is refused, at a line or, where no line is to blame, at 0. Errors of four types end here, and of each the program prints its number alone.
    Refused { number: u32, line: u64 },
    // The system failed, and standard error says so.
    Failed,
}

impl From<FrontendError> for Stop {
    fn from(e: FrontendError) -> Stop {
        Stop::Refused {
            number: e.number(),
            line: 0,
        }
    }
}
