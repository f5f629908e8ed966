// What the rows do: banks and gains are kept for the sheets to come, the others make a call and have its answer (oracle/README.md, 'Rows on floats').
use crate::answers;
use design::{Design, Gains};
use params::Bank;
use replay::banks::Banks;
use rows::Replay;

// What is in force.
#[derive(Drop)]
pub(crate) struct Floats {
    banks: Banks,
    gains: Gains,
}

// The lowest eight bits of a number.
fn byte(number: i64) -> u8 {
    number.to_le_bytes()[0]
}

// The first eight numbers of a row on a design.
fn design_of(numbers: &[i64]) -> Design {
    Design {
        sample_rate: answers::float_of(rows::at(numbers, 0)),
        symbol_rate: answers::float_of(rows::at(numbers, 1)),
        carrier_offset: answers::float_of(rows::at(numbers, 2)),
        trim: answers::float_of(rows::at(numbers, 3)),
        agc_rms: answers::float_of(rows::at(numbers, 4)),
        taps: arith::wrap_u32(rows::at(numbers, 5)),
        bits: byte(rows::at(numbers, 6)),
        block_log2: byte(rows::at(numbers, 7)),
    }
}

fn gains_of(numbers: &[i64]) -> Gains {
    Gains {
        kp: i16::try_from(rows::at(numbers, 0)).unwrap_or(0),
        kp_shift: byte(rows::at(numbers, 1)),
        ki: i16::try_from(rows::at(numbers, 2)).unwrap_or(0),
        ki_shift: byte(rows::at(numbers, 3)),
        q_shift: byte(rows::at(numbers, 4)),
    }
}

impl Floats {
    pub(crate) fn new() -> Floats {
        Floats {
            banks: Banks::none(),
            gains: Gains::default(),
        }
    }

    // Row 6.
    fn is_sheet(&self, numbers: &[i64]) -> bool {
        let answer = design_of(numbers).params(
            self.gains,
            self.banks.bank(Bank::H),
            self.banks.bank(Bank::G),
            self.banks.bank(Bank::K),
        );
        answers::is_sheet(answer, rows::rest(numbers, 8))
    }
}

impl Replay for Floats {
    // No call answers a row of an unknown kind.
    fn take(&mut self, row: &[i64]) -> Option<bool> {
        let Some((kind, numbers)) = row.split_first() else {
            return Some(false);
        };
        match *kind {
            0 => return Some(answers::is_sample(numbers)),
            1 => {
                let answer = design_of(numbers).registers();
                return Some(answers::is_design(answer, rows::rest(numbers, 8)));
            }
            2 => self.banks.keep(Bank::H, numbers),
            3 => self.banks.keep(Bank::G, numbers),
            4 => self.banks.keep(Bank::K, numbers),
            5 => self.gains = gains_of(numbers),
            6 => return Some(self.is_sheet(numbers)),
            _ => return Some(false),
        }
        None
    }
}
