// What a call refuses of a state, and of a block's sizes: 1 to 8, 29, 9, then 10 to 12, in this order.
ghost use Rattle.std.specs.Prelude.{◌≡◌};
ghost use Rattle.params.specs.Refusal.{answer_refusal, first_of};
ghost use Rattle.state.specs.Check.{can_go_on, state_faults, pairs_taken, size_faults, block_faults, frontend_refusal};

use crate::{Frontend, FrontendError};
use params::{Params, Sheet};

// How many pairs of so many sample values a block takes, with so many output places (RULES 4).
#[tactic(auto, unfolding(crate::specs::Check::pairs_taken))]
pub fn pairs_taken(values: usize, places: usize) -> usize
    ensures { result ≡ pairs_taken values places }
{
    (values / 2).min(places / 20)
}

impl Frontend {
    // 9: whether a block can go on from the state: it holds this sheet, and is good under it.
    #[tactic(auto, unfolding(crate::specs::Check::can_go_on))]
    fn can_go_on(&self, p: Params) -> bool
        ensures { result ≡ can_go_on p self.now }
    {
        fields::are_same(p, self.params) && self.is_good(p)
    }

    // 1 to 8, 29, then 9.
    #[tactic(auto, using(params::proofs::Accepted::judging), unfolding(crate::specs::Check::state_faults))]
    pub(crate) fn check_state(&self, sheet: &Sheet<'_>) -> Result<(), FrontendError>
        ensures { answer_refusal frontend_refusal result ≡ first_of (state_faults sheet.now self.now) }
    {
        sheet.validate()?;
        if !self.can_go_on(sheet.params) {
            return Err(FrontendError::State);
        }
        Ok(())
    }

    // 1 to 8, 29, then 9 to 12, of a block with so many sample values and output places.
    #[tactic(auto, using(crate::proofs::Answers::told), unfolding(crate::specs::Check::block_faults))]
    pub fn check_block(
        &self,
        sheet: &Sheet<'_>,
        values: usize,
        places: usize,
    ) -> Result<(), FrontendError>
        ensures { answer_refusal frontend_refusal result ≡ first_of (block_faults sheet.now self.now values places) }
    {
        self.check_state(sheet)?;
        self.check_sizes(values, places)
    }

    // 10 to 12. The samples are counted by what is left of them, so that the test cannot overflow.
    #[tactic(auto, using(params::proofs::Faults::one_by_one, crate::proofs::Answers::few_pairs), unfolding(crate::specs::Check::size_faults))]
    fn check_sizes(&self, values: usize, places: usize) -> Result<(), FrontendError>
        ensures { answer_refusal frontend_refusal result ≡ first_of (size_faults self.now values places) }
    {
        if values % 2 != 0 {
            return Err(FrontendError::OddInput);
        }
        if values != 0 && places < 20 {
            return Err(FrontendError::ShortOutput);
        }
        let room = 0x7fff_ffff_ffff_ffff - pairs_taken(values, places) as u64;
        if room < self.samples {
            return Err(FrontendError::TooManySamples);
        }
        Ok(())
    }
}
