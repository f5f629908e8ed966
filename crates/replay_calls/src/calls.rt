// What the rows do: some are kept for the calls to come, the others make a call on what is in force and have its answer (oracle/README.md, 'Rows of calls').
ghost use Rattle.std.specs.Prelude.{◌≤◌};

use crate::{answer, states};
use fixed::Processed;
use params::{Bank, Params, Sheet};
use replay::banks::Banks;
use rows::Replay;
use state::{Frontend, FrontendError};

// The sample values of a row, and how many there are.
#[derive(Drop)]
struct Values {
    room: [i16; 8192],
    count: usize,
    ghost within: { count ≤ 8192 },
}

// What is in force.
#[derive(Drop)]
pub(crate) struct Calls {
    params: Params,
    banks: Banks,
    state: Frontend,
    values: Values,
    // The output of the last block, and how many places of it the block was given. A row says how many, so they are held to the room once, where they are read.
    out: [i64; 81920],
    places: usize,
}

impl Values {
    // By hand: an array of 8,192 has no Default.
    fn none() -> Values {
        Values {
            room: [0; 8192],
            count: 0,
        }
    }

    fn keep(&mut self, numbers: &[i64]) {
        for (value, number) in self.room.iter_mut().zip(numbers) {
            *value = i16::try_from(*number).unwrap_or(0);
        }
        self.count = numbers.len().min(self.room.len());
    }

    fn kept(&self) -> &[i16] {
        &self.room[..self.count]
    }
}

// What an output holds at a place before a block is asked for: a number far below those of symbols.
fn pattern(place: usize) -> i64 {
    0xc000_0000_0000_0000u64
        .wrapping_sub(place as u64)
        .cast_signed()
}

// Whether an output has room for so many symbols, and still holds the pattern behind them.
fn is_kept_behind(out: &[i64], count: usize) -> bool {
    count <= out.len() / 20
        && out
            .iter()
            .enumerate()
            .skip(20 * count)
            .all(|(place, number)| *number == pattern(place))
}

// Whether these are the answer of a block that was given this output. It has no symbols where it refuses, and then none of the output is written.
fn is_block(numbers: &[i64], block: &Result<Processed, FrontendError>, out: &[i64]) -> bool {
    let done = block.unwrap_or_default();
    let told = [
        (out.len() as u64).cast_signed(),
        (done.count as u64).cast_signed(),
        (done.taken as u64).cast_signed(),
        (done.clips as u64).cast_signed(),
    ];
    numbers.starts_with(&told)
        && answer::is(block, rows::rest(numbers, 4))
        && is_kept_behind(out, done.count)
}

impl Calls {
    // Zeros, with nothing kept.
    pub(crate) fn new() -> Calls {
        Calls {
            params: fields::none(),
            banks: Banks::none(),
            state: states::of_numbers(&[]),
            values: Values::none(),
            out: [0; 81920],
            places: 0,
        }
    }

    // ---- rows that are kept

    // Row 0: the fields of a sheet. Where they are no sheet's, it is an answer that differs.
    fn keep_fields(&mut self, numbers: &[i64]) -> Option<bool> {
        match places::read_sheet(numbers) {
            Ok(params) => {
                self.params = params;
                None
            }
            Err(_) => Some(false),
        }
    }

    // ---- calls

    fn sheet(&self) -> Sheet<'_> {
        self.banks.sheet(self.params)
    }

    // Row 4.
    fn is_judged(&self, numbers: &[i64]) -> bool {
        answer::is(&self.sheet().validate(), numbers)
    }

    // Row 5: of a refusal it has the number alone.
    fn is_offset(&self, numbers: &[i64]) -> bool {
        let period = arith::wrap_u32(rows::at(numbers, 0));
        let told = match offset::of_period(&self.sheet(), period) {
            Ok(parts) => [parts, 0],
            Err(e) => [0, i64::from(e.number())],
        };
        rows::rest(numbers, 1) == told.as_slice()
    }

    // Row 8: starting. Where that is refused, zeros are left.
    fn is_started(&mut self, numbers: &[i64]) -> bool {
        let started = Frontend::new(&self.sheet());
        self.state = started.unwrap_or_default();
        answer::is(&started, numbers)
    }

    // Row 10: a block.
    fn is_processed(&mut self, numbers: &[i64]) -> bool {
        let out = &mut self.out[..];
        self.places = (rows::at(numbers, 0).cast_unsigned() as usize).min(out.len());
        // Only the places that the row names: the room has hundreds of times as many, and nothing is read behind them.
        for (place, number) in out[..self.places].iter_mut().enumerate() {
            *number = pattern(place);
        }
        let sheet = self.banks.sheet(self.params);
        let block = fixed::process(
            &mut self.state,
            &sheet,
            self.values.kept(),
            &mut out[..self.places],
        );
        is_block(numbers, &block, &out[..self.places])
    }

    // Row 11: a part of the last output.
    fn is_output(&self, numbers: &[i64]) -> bool {
        let from = rows::at(numbers, 0).cast_unsigned() as usize;
        match self.out.get(from..self.places) {
            Some(out) => out.starts_with(rows::rest(numbers, 1)),
            None => false,
        }
    }

    // Row 12.
    fn is_reading(&self, numbers: &[i64]) -> bool {
        let reading = self.state.read(&self.sheet());
        let read = reading.unwrap_or_default();
        let told = [
            i64::from(read.period),
            i64::from(read.gain),
            read.symbols.cast_signed(),
        ];
        numbers.starts_with(&told) && answer::is(&reading, rows::rest(numbers, 3))
    }

    // Row 13: asking.
    fn is_asked(&self, numbers: &[i64]) -> bool {
        let asked = retune::ask(&self.state, &self.sheet());
        let ticket = asked.unwrap_or(0).cast_signed();
        numbers.starts_with(&[ticket]) && answer::is(&asked, rows::rest(numbers, 1))
    }

    // Row 14: a commit, with this ticket.
    fn is_committed(&mut self, numbers: &[i64]) -> bool {
        let ticket = rows::at(numbers, 0).cast_unsigned();
        let sheet = self.banks.sheet(self.params);
        let done = retune::commit(&mut self.state, ticket, &sheet);
        answer::is(&done, rows::rest(numbers, 1))
    }
}

impl Replay for Calls {
    // No call answers a row of an unknown kind.
    fn take(&mut self, row: &[i64]) -> Option<bool> {
        let Some((kind, numbers)) = row.split_first() else {
            return Some(false);
        };
        match *kind {
            0 => return self.keep_fields(numbers),
            1 => self.banks.keep(Bank::H, numbers),
            2 => self.banks.keep(Bank::G, numbers),
            3 => self.banks.keep(Bank::K, numbers),
            4 => return Some(self.is_judged(numbers)),
            5 => return Some(self.is_offset(numbers)),
            6 => self.state = states::of_numbers(numbers),
            7 => self.values.keep(numbers),
            8 => return Some(self.is_started(numbers)),
            9 => return Some(states::is(&self.state, numbers)),
            10 => return Some(self.is_processed(numbers)),
            11 => return Some(self.is_output(numbers)),
            12 => return Some(self.is_reading(numbers)),
            13 => return Some(self.is_asked(numbers)),
            14 => return Some(self.is_committed(numbers)),
            _ => return Some(false),
        }
        None
    }
}
