// A state as 204 numbers: nco, t_acc, v, period, gain_acc, symbols, head, oldest, waiting, samples; the 18 fields of the held sheet; the line's 64 pairs i, q;
// the 24 pairs e, err of the ring in which errors wait. Both as they are stored.
use params::Params;
use registers::{Pending, Registers};
use state::{Frontend, Pair, RING_PLACES};
use std::array;

fn registers_of(numbers: &[i64]) -> Registers {
    Registers {
        nco: arith::wrap_u32(rows::at(numbers, 0)),
        t_acc: rows::at(numbers, 1),
        v: rows::at(numbers, 2),
        period: arith::wrap_u32(rows::at(numbers, 3)),
        gain_acc: arith::wrap_u32(rows::at(numbers, 4)),
        symbols: rows::at(numbers, 5).cast_unsigned(),
    }
}

// Where these are the fields of no sheet, the held sheet is zeros.
fn held_of(numbers: &[i64]) -> Params {
    let fields: [i64; 18] = array::from_fn(|n| rows::at(numbers, n));
    places::read_sheet(&fields).unwrap_or(fields::none())
}

fn size_at(numbers: &[i64], place: usize) -> usize {
    rows::at(numbers, place).cast_unsigned() as usize
}

// A number as it is stored in 32 bits.
fn stored_at(numbers: &[i64], place: usize) -> i32 {
    i32::try_from(rows::at(numbers, place)).unwrap_or(0)
}

// The state that these numbers are.
pub(crate) fn of_numbers(numbers: &[i64]) -> Frontend {
    let line = rows::rest(numbers, 28);
    let pending = rows::rest(numbers, 156);
    Frontend {
        params: held_of(rows::rest(numbers, 10)),
        registers: registers_of(numbers),
        line: array::from_fn(|n| Pair {
            i: stored_at(line, 2 * n),
            q: stored_at(line, 2 * n + 1),
        }),
        head: size_at(numbers, 6),
        pending: array::from_fn(|n| Pending {
            e: stored_at(pending, 2 * n),
            err: stored_at(pending, 2 * n + 1),
        }),
        oldest: size_at(numbers, 7),
        waiting: size_at(numbers, 8),
        samples: rows::at(numbers, 9).cast_unsigned(),
    }
}

// Whether a pair of numbers is these two.
fn is_pair(numbers: &[i64], a: i32, b: i32) -> bool {
    numbers == [i64::from(a), i64::from(b)].as_slice()
}

fn is_held(params: Params, numbers: &[i64]) -> bool {
    let mut fields = [0; 18];
    places::write_sheet(params, &mut fields).is_ok() && numbers.starts_with(&fields)
}

// Whether these are the numbers of a state, no fewer and no more.
pub(crate) fn is(state: &Frontend, numbers: &[i64]) -> bool {
    let registers = state.registers;
    let first = [
        i64::from(registers.nco),
        registers.t_acc,
        registers.v,
        i64::from(registers.period),
        i64::from(registers.gain_acc),
        registers.symbols.cast_signed(),
        (state.head as u64).cast_signed(),
        (state.oldest as u64).cast_signed(),
        (state.waiting as u64).cast_signed(),
        state.samples.cast_signed(),
    ];
    let line = rows::rest(numbers, 28).chunks(2);
    let pending = rows::rest(numbers, 156).chunks(2);
    numbers.len() == 204
        && numbers.starts_with(&first)
        && is_held(state.params, rows::rest(numbers, 10))
        && line
            .zip(&state.line)
            .all(|(two, pair)| is_pair(two, pair.i, pair.q))
        && pending
            .zip(&state.pending)
            .all(|(two, errors)| is_pair(two, errors.e, errors.err))
}
