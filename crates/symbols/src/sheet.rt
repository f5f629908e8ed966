// The first 193 lines: the sheet's 18 fields, and 64 rows of each bank.
use crate::input::Input;
use crate::stop::Stop;
use kinds::Kind;
use params::{ParamError, Params, Sheet};

// The rows of a bank.
const ROWS: usize = 64;

// The sheet's fields with room for its banks, of which rows of `taps` numbers take the front.
#[derive(Drop)]
pub(crate) struct Head {
    params: Params,
    h: [i32; 4096],
    g: [i32; 4096],
    k: [i32; 4096],
}

// Line 1. A row's length rests on the taps, so these are judged at once.
pub(crate) fn read_params(input: &mut Input) -> Result<Params, Stop> {
    let mut values = [0i64; 18];
    input.take(&places::sheet_kinds(), &mut values)?;
    match places::read_sheet(&values).map_err(|e| e.number()) {
        Ok(params) if params::is_good_taps(params.taps) => Ok(params),
        Ok(_) => Err(Stop::Refused {
            number: ParamError::Taps.number(),
            line: 1,
        }),
        Err(number) => Err(Stop::Refused { number, line: 1 }),
    }
}

// A bank, row by row.
fn read_bank(input: &mut Input, taps: u32, bank: &mut [i32]) -> Result<(), Stop> {
    let taps = recording::row_length(taps);
    let kinds = [Kind::I32; 64];
    let mut values = [0i64; 64];
    let mut from: usize = 0;
    for _ in 0..ROWS {
        input.take(&kinds[..taps], &mut values)?;
        from = recording::keep_row(&values[..taps], bank, from);
    }
    Ok(())
}

impl Head {
    // Room for the banks.
    pub(crate) fn new(params: Params) -> Head {
        Head {
            params,
            h: [0; 4096],
            g: [0; 4096],
            k: [0; 4096],
        }
    }

    // Reads the banks where they stay: a Head that is handed on is copied with all three.
    pub(crate) fn read_banks(&mut self, input: &mut Input) -> Result<(), Stop> {
        let taps = self.params.taps;
        read_bank(input, taps, &mut self.h)?;
        read_bank(input, taps, &mut self.g)?;
        read_bank(input, taps, &mut self.k)
    }

    pub(crate) fn sheet(&self) -> Sheet<'_> {
        let long = recording::bank_length(self.params.taps);
        Sheet {
            params: self.params,
            h: &self.h[..long],
            g: &self.g[..long],
            k: &self.k[..long],
        }
    }
}
