// Reading a state.
ghost use Rattle.std.specs.Prelude.{◌≡◌};
ghost use Rattle.state.specs.Read.{read_of, reading};

use crate::{Frontend, FrontendError, Reading};
use params::Sheet;

impl Frontend {
    // Reading a state (RULES 4.3).
    #[tactic(auto, using(crate::proofs::Answers::told, crate::proofs::Answers::accepted_read), unfolding(crate::specs::Read::read_of))]
    pub fn read(&self, sheet: &Sheet<'_>) -> Result<Reading, FrontendError>
        ensures { reading result ≡ read_of sheet.now self.now }
    {
        self.check_state(sheet)?;
        let registers = self.registers;
        Ok(Reading {
            period: registers.period,
            gain: registers.gain(),
            symbols: registers.symbols,
        })
    }
}
