// The six loop registers: what they are, how the errors of a symbol move them, and what a symbol does to them as one group.
#![tactic(auto)]

mod correct;
mod step;

pub use step::{is_due, is_held};

// The errors that one symbol leaves: of the timing, and of the gain. They wait until the loop's delay is over.
#[derive(Clone, Copy, Default)]
pub struct Pending {
    pub e: i32,
    pub err: i32,
}

// The registers that change as a group with each sample and symbol.
#[derive(Clone, Copy, Default)]
pub struct Registers {
    // Phase word of the mixer, in 2^32ths of a turn.
    pub nco: u32,
    // Time to the next symbol, in 2^24ths of a sample (the rules' t).
    pub t_acc: i64,
    // The loop's integrator, in 2^40ths of a sample.
    pub v: i64,
    // The symbol period in force, in 2^24ths of a sample.
    pub period: u32,
    // The gain accumulator; the gain is its upper 16 of 24 bits.
    pub gain_acc: u32,
    // Symbols made so far.
    pub symbols: u64,
}
