// The pairs, through the front end in blocks, and each block in one call or more. What is printed does not depend on the sizes of blocks and calls.
ghost use Rattle.std.specs.Prelude.{◌≤◌, ◌<◌, ◌*◌, length, IfOk};

use crate::input::Input;
use crate::output::Output;
use crate::sheet::{self, Head};
use crate::stop::Stop;
use kinds::Kind;
use params::Sheet;
use state::{Frontend, FrontendError};

const PAIR: [Kind; 2] = [Kind::I16, Kind::I16];

// How many pairs were read, and what stopped the reading before there was no place for more.
#[derive(Clone, Copy)]
struct Block {
    pairs: usize,
    stop: Option<Stop>,
}

// Reads pairs until there is no place for more.
fn read_block(input: &mut Input, values: &mut [i16]) -> Block
    ensures { 2 * result.pairs ≤ length values.new }
{
    let mut pair = [0i64; 2];
    for n in 0..values.len() / 2 {
        if let Err(stop) = input.take(&PAIR, &mut pair) {
            return Block {
                pairs: n,
                stop: Some(stop),
            };
        }
        recording::keep_pair(pair[0], pair[1], values, n);
    }
    Block {
        pairs: values.len() / 2,
        stop: None,
    }
}

// Prints the symbols of the pairs that a call takes: as many as it has places for. Says how many values these were. A struct of the
// other four parameters would be made at one place, and taken apart again here.
fn put_some(
    state: &mut Frontend,
    sheet: &Sheet<'_>,
    values: &[i16],
    places: &mut [i64],
    output: &mut Output,
) -> Result<usize, Stop>
    ensures { IfOk result (λ n. (n ≤ length values.now) × (2 ≤ length values.now → 0 < n)) }
{
    let done = fixed::process(state, sheet, values, places)?;
    output.put_symbols(places, done.count)?;
    Ok(2 * done.taken)
}

// Prints the symbols of these pairs. A call may take some of them, so that the next one goes on behind these: how many it takes is known behind it, and no
// range has these steps. Its parameters are put_some's.
fn put_block(
    state: &mut Frontend,
    sheet: &Sheet<'_>,
    values: &[i16],
    places: &mut [i64],
    output: &mut Output,
) -> Result<(), Stop> {
    let mut rest = values;
    while 2 <= rest.len() {
        let taken = put_some(state, sheet, rest, places, output)?;
        rest = &rest[taken..];
    }
    Ok(())
}

// Prints the symbols of the whole input and the end line, or stops before.
pub(crate) fn run(input: &mut Input, output: &mut Output) -> Result<(), Stop> {
    let mut head = Head::new(sheet::read_params(input)?);
    head.read_banks(input)?;
    let sheet = head.sheet();
    let mut state = Frontend::new(&sheet).map_err(FrontendError::from)?;
    // Places for half of the pairs, so that no long input is printed right unless each call goes on from what the one before it took.
    let mut values = [0i16; 4096];
    let mut places = [0i64; 20480];
    for _ in 0..u64::MAX {
        let block = read_block(input, &mut values);
        put_block(
            &mut state,
            &sheet,
            &values[..2 * block.pairs],
            &mut places,
            output,
        )?;
        match block.stop {
            None => {}
            Some(Stop::End) => {
                return output.put_end(
                    state.samples,
                    state.registers.symbols,
                    state.registers.t_acc,
                );
            }
            Some(stop) => return Err(stop),
        }
    }
    // No input is so long.
    Err(Stop::Failed)
}
