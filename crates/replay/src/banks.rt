// The three banks that rows give, each in a room of its own.
ghost use Rattle.std.specs.Prelude.{◌≡◌};
ghost use Rattle.params.specs.Judge.{sheet_of};
ghost use Rattle.params.specs.declared.Bank.TheVariants.{H, G, K};
ghost use Rattle.replay.specs.Banks.{no_banks, kept, bank_of};

use params::{Bank, Params, Sheet};

// The banks' rooms, and how many places of its room each takes.
#[derive(Clone, Copy)]
pub struct Banks {
    lengths: [usize; 3],
    rooms: [[i32; 8192]; 3],
}

impl Banks {
    // By hand: an array of 8,192 has no Default.
    pub fn none() -> Banks
        ensures { result ≡ no_banks }
    {
        Banks {
            lengths: [0; 3],
            rooms: [[0; 8192]; 3],
        }
    }

    // Keeps other coefficients of a bank.
    pub fn keep(&mut self, bank: Bank, coefficients: &[i64])
        ensures { self.new ≡ kept self.old bank coefficients.now }
    {
        let n = bank as usize;
        self.lengths[n] = recording::keep_row(coefficients, &mut self.rooms[n], 0);
    }

    // A bank's coefficients.
    pub fn bank(&self, bank: Bank) -> &[i32]
        ensures { result.now ≡ bank_of self.now bank }
    {
        let n = bank as usize;
        let room = &self.rooms[n];
        &room[..self.lengths[n].min(room.len())]
    }

    // A sheet of the three.
    pub fn sheet(&self, params: Params) -> Sheet<'_>
        ensures { result ≡ sheet_of params (bank_of self.now H) (bank_of self.now G) (bank_of self.now K) }
    {
        Sheet {
            params,
            h: self.bank(Bank::H),
            g: self.bank(Bank::G),
            k: self.bank(Bank::K),
        }
    }
}
