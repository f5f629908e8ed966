// A symbol: what is made of the filters' sums, and the 20 places that it fills in an output.
#![tactic(auto)]

mod make;
mod places;

// The sums of one bank's row over the line; the filter gives three of these, for h, g and k. A type of its own beside Output and the state's Pair: contracts
// see all three widths as integers, so of one generic type the definitions could take a sum for an output or a sample.
#[derive(Clone, Copy, Default)]
pub struct Sums {
    pub i: i64,
    pub q: i64,
}

// What becomes of a sum: the output of a filter, that times the gain, and the symbol's own components, each within 16 bits.
#[derive(Clone, Copy)]
pub struct Output {
    pub i: i16,
    pub q: i16,
}

// A symbol, with what led to it.
#[derive(Clone, Copy)]
pub struct Symbol {
    // The sample at which it was made, counted from 0, and the sixty-fourth of it.
    pub sample: u64,
    pub phase: u8,
    // The filters' outputs: matched, derivative and output filter.
    pub y: Output,
    pub dy: Output,
    pub yk: Output,
    // The gain and the period in force.
    pub gain: u16,
    pub period: u32,
    // The same outputs times the gain.
    pub z: Output,
    pub dz: Output,
    pub zk: Output,
    // The output components, `bits` wide.
    pub q: Output,
    // The errors of timing and gain that it leaves.
    pub e: i32,
    pub err: i32,
    // How many of y, dy, yk, z, dz and zk, component by component, were clipped to fit 16 bits: 0 to 12. It has no place in an output.
    pub clips: u8,
}
