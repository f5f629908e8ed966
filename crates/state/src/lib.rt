// The state: all that is kept between samples, how it begins, what a call refuses of it, and what can be read of it.
#![tactic(auto)]

mod check;
mod good;
mod read;
mod start;

ghost use Rattle.std.specs.Prelude.{◌≡◌};
ghost use Rattle.state.specs.Check.{frontend_refusal};

pub use check::pairs_taken;
use params::{ParamError, Params};
use registers::{Pending, Registers};

// Places of the ring in which errors wait, at every delay: as many as the longest delay takes.
pub const RING_PLACES: usize = 24;

// A sample, as it is mixed and kept in the line: in phase and in quadrature. No generic type is shared with symbol's Sums and Output: contracts see all three
// widths as integers, so the definitions could take a sum or an output for a sample.
#[derive(Clone, Copy, Default)]
pub struct Pair {
    pub i: i32,
    pub q: i32,
}

// All that is kept between samples (RULES 3.1).
#[derive(Clone, Copy)]
pub struct Frontend {
    // The fields of the held sheet: that of the start, or the one that was committed last.
    pub params: Params,
    pub registers: Registers,
    // The last `taps` mixed samples, and the newest's position, which falls modulo taps (RULES 3.4). Room is kept for the most: there is no heap.
    pub line: [Pair; 64],
    pub head: usize,
    // The waiting errors, a ring in fixed memory for the same reason: the oldest's position and how many wait, at most the sheet's delay.
    pub pending: [Pending; RING_PLACES],
    pub oldest: usize,
    pub waiting: usize,
    // Samples taken so far.
    pub samples: u64,
}

// Why a call on a state is refused (RULES 1.4, 4.1).
#[derive(Clone, Copy, PartialEq, Eq, Debug)]
pub enum FrontendError {
    Params(ParamError),
    State,
    OddInput,
    ShortOutput,
    TooManySamples,
}

impl From<ParamError> for FrontendError {
    ghost use Rattle.state.specs.declared.FrontendError.{FrontendError};

    ghost from_gives = { λ e f. f ≡ FrontendError.Params e };

    fn from(e: ParamError) -> FrontendError {
        FrontendError::Params(e)
    }
}

impl FrontendError {
    // Its number, since text and C take nothing else of it.
    pub fn number(self) -> u32
        ensures { result ≡ (frontend_refusal self).number }
    {
        match self {
            FrontendError::Params(e) => e.number(),
            FrontendError::State => 9,
            FrontendError::OddInput => 10,
            FrontendError::ShortOutput => 11,
            FrontendError::TooManySamples => 12,
        }
    }
}

// What is read of a state. Its zeros stand for a reading that is refused.
#[derive(Clone, Copy, Default)]
pub struct Reading {
    pub period: u32,
    pub gain: u16,
    pub symbols: u64,
}
