// The sheet: the parameters of the front end, how they are judged, and why they are refused.
#![tactic(auto)]

use std::marker::Model;

mod banks;
mod judge;
mod refusal;

pub use banks::detector_of;
pub use judge::is_good_taps;

// The run-time parameters (RULES 1.1).
#[derive(Clone, Copy, PartialEq, Eq, Default, Debug)]
pub struct Params {
    // Taps of a row: even, 4 to 64.
    pub taps: u32,
    // What the mixer's phase moves by for each sample, in 2^32ths of a turn.
    pub nco_step: i32,
    // The symbol period at the start, and the bounds that the loop keeps to, in 2^24ths of a sample.
    pub period_nominal: u32,
    pub period_min: u32,
    pub period_max: u32,
    // Places by which the timing detector's product is shifted right.
    pub ted_shift: u8,
    // The loop's proportional gain, kp / 2^kp_shift, and its integral gain, ki / 2^ki_shift.
    pub kp: i16,
    pub kp_shift: u8,
    pub ki: i16,
    pub ki_shift: u8,
    // The furthest that the integrator may move the period, in 2^24ths of a sample.
    pub integrator_max: i32,
    // The gain accumulator at the start, the power that the gain loop aims at, and the shift of its error.
    pub agc_init: u32,
    pub agc_target: u32,
    pub agc_shift: u8,
    // Width of an output component, and the shift that brings one to this width.
    pub bits: u8,
    pub q_shift: u8,
    // log2 of the block length in symbols; carried and judged, and read by no rule of the path.
    pub block_log2: u8,
    // The loop's delay: how many symbols later a symbol's errors act, 1 to 24.
    pub delay: u8,
}

// A sheet: the parameters with the banks h, g and k that are lent beside them, each 64 rows of `taps` numbers, row by row.
#[derive(Drop)]
pub struct Sheet<'a> {
    pub params: Params,
    pub h: &'a [i32],
    pub g: &'a [i32],
    pub k: &'a [i32],
}

impl<'a> Model for Sheet<'a> {
    ghost use Rattle.params.specs.Judge.{Sheet, sheet_of};

    ghost Value = { Sheet };

    ghost view = { λ s. sheet_of s.params s.h.now s.g.now s.k.now };
}

// The three banks of a sheet: the timing detector's, the loop's, and the output's.
#[derive(Clone, Copy, PartialEq, Eq, Debug)]
pub enum Bank {
    H,
    G,
    K,
}

// The fields that are refused by 7, in the order in which they are looked at.
#[derive(Clone, Copy, PartialEq, Eq, Debug)]
pub enum Field {
    Bits,
    QShift,
    BlockLog2,
    AgcInit,
    IntegratorMax,
    TedShift,
    KpShift,
    KiShift,
}

// Why a sheet is refused (RULES 1.4). A phase is a row of a bank.
#[derive(Clone, Copy, PartialEq, Eq, Debug)]
pub enum ParamError {
    Taps,
    BankLength,
    Coefficient {
        bank: Bank,
        phase: usize,
        value: i32,
    },
    CoefficientSum {
        bank: Bank,
        phase: usize,
        sum: u64,
    },
    DetectorTaps {
        bank: Bank,
    },
    PeriodBounds,
    Range {
        field: Field,
    },
    AgcShift,
    Delay,
}
