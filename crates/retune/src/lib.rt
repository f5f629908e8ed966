// Retuning a state while it is locked: asking whether a new sheet may be put into it, and committing that sheet (RULES 4.4, 4.5).
//
// Asking changes nothing and answers a ticket, the number of the state's symbols. A commit asks again, takes that ticket alone, and changes the held sheet and
// nothing else.
#![tactic(auto)]

mod check;
mod refusal;

ghost use Rattle.std.specs.Prelude.{◌≡◌};
ghost use Rattle.retune.specs.Retune.{ask_of, asked, commit_of, committed};

use params::{ParamError, Sheet};
use state::Frontend;

// Why a retune is refused (RULES 4.4, 4.5).
#[derive(Clone, Copy, PartialEq, Eq, Debug)]
pub enum RetuneError {
    Params(ParamError),
    State,
    Taps,
    Ticket,
}

// Whether a sheet may be put into a state.
#[tactic(auto, using(params::proofs::Accepted::judging, crate::proofs::Answers::told), unfolding(crate::specs::Retune::ask_of, crate::specs::Retune::ask_faults))]
pub fn ask(f: &Frontend, sheet: &Sheet<'_>) -> Result<u64, RetuneError>
    ensures { asked result ≡ ask_of sheet.now f.now }
{
    sheet.validate()?;
    check::check_held(f, sheet.params)?;
    Ok(f.registers.symbols)
}

// Puts a sheet into a state, with the ticket that asking gave. A state that it refuses stays as it was.
#[tactic(auto, using(crate::proofs::Answers::told), unfolding(crate::specs::Retune::commit_of, crate::specs::Retune::commit_faults, crate::specs::Retune::ask_of, crate::specs::Retune::retuned))]
pub fn commit(f: &mut Frontend, ticket: u64, sheet: &Sheet<'_>) -> Result<(), RetuneError>
    ensures { committed result f.new ≡ commit_of sheet.now ticket f.old }
{
    let asked = ask(f, sheet)?;
    if ticket != asked {
        return Err(RetuneError::Ticket);
    }
    f.params = sheet.params;
    Ok(())
}
