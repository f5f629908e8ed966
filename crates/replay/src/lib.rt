// What the numbers of the oracle's rows stand for, in the three replay programs: floats by their bits, refusals, and banks.
#![tactic(auto)]

pub mod answer;
pub mod banks;
pub mod bits;
