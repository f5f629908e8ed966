// Judging a sheet with its banks: 1 to 8 and 29, in this order (RULES 1.4).
ghost use Rattle.std.specs.Prelude.{◌≡◌, pos};
ghost use Rattle.params.specs.Refusal.{error_refusal, answer_refusal, faults_of, unless, first_of};
ghost use Rattle.params.specs.Judge.{good_taps, length_faults, good_periods, good_delay, field_faults, judged};
ghost use Rattle.arith.specs.Arith.{within};
ghost use Rattle.params.specs.declared.ParamError.{ParamError};
ghost use Rattle.params.specs.declared.Field.{Field};

use crate::refusal::require;
use crate::{Field, ParamError, Params, Sheet};

// Even, and from 4 to 64. What refuses a sheet by 1 refuses a design by 15, and text before its banks are read.
#[tactic(auto, unfolding(crate::specs::Judge::good_taps))]
pub fn is_good_taps(taps: u32) -> bool
    ensures { result ≡ good_taps taps }
{
    (4..=64).contains(&taps) && taps % 2 == 0
}

impl Sheet<'_> {
    // Checks all that the arithmetic of the path relies on (RULES 1.4).
    #[tactic(auto, using(crate::proofs::Faults::kinds), unfolding(crate::specs::Judge::judged, crate::specs::Judge::faults))]
    pub fn validate(&self) -> Result<(), ParamError>
        ensures { answer_refusal error_refusal result ≡ judged self.now }
    {
        self.check_lengths()?;
        self.check_banks()?;
        self.params.check_fields()
    }

    // 1 and 2: the taps, then the lengths of h, g and k.
    #[tactic(auto, using(crate::proofs::Faults::one_by_one), unfolding(crate::specs::Judge::length_faults, crate::specs::Judge::good_length))]
    fn check_lengths(&self) -> Result<(), ParamError>
        ensures { answer_refusal error_refusal result ≡ first_of (length_faults self.now.params.taps self.now.h self.now.g self.now.k) }
    {
        require(is_good_taps(self.params.taps), ParamError::Taps)?;
        let long = 64 * (self.params.taps as usize);
        require(self.h.len() == long, ParamError::BankLength)?;
        require(self.g.len() == long, ParamError::BankLength)?;
        require(self.k.len() == long, ParamError::BankLength)
    }
}

// 7 where a field is not from lo to hi.
fn check_range(field: Field, v: u32, lo: u32, hi: u32) -> Result<(), ParamError>
    ensures { faults_of error_refusal result ≡ unless (within (pos lo) (pos hi) (pos v)) (error_refusal (ParamError.Range field)) }
{
    require((lo..=hi).contains(&v), ParamError::Range { field })
}

impl Params {
    #[tactic(auto, unfolding(crate::specs::Judge::good_periods))]
    fn check_periods(self) -> Result<(), ParamError>
        ensures { faults_of error_refusal result ≡ unless (good_periods self) (error_refusal ParamError.PeriodBounds) }
    {
        let good = 0x100_0000 < self.period_min
            && self.period_min <= self.period_nominal
            && self.period_nominal <= self.period_max
            && self.period_max < 0x400_0000;
        require(good, ParamError::PeriodBounds)
    }

    fn check_integrator(self) -> Result<(), ParamError>
        ensures { faults_of error_refusal result ≡ unless (within (pos 0) (pos 4194303) self.integrator_max)
            (error_refusal (ParamError.Range Field.IntegratorMax)) }
    {
        require(
            (0..=4194303).contains(&self.integrator_max),
            ParamError::Range {
                field: Field::IntegratorMax,
            },
        )
    }

    #[tactic(auto, unfolding(crate::specs::Judge::good_delay))]
    fn check_delay(self) -> Result<(), ParamError>
        ensures { faults_of error_refusal result ≡ unless (good_delay self.delay) (error_refusal ParamError.Delay) }
    {
        require((1..=24).contains(&self.delay), ParamError::Delay)
    }

    // 6, then 7 field by field, then 8, then 29.
    #[tactic(auto, using(crate::proofs::Faults::one_by_one), unfolding(crate::specs::Judge::field_faults))]
    fn check_fields(self) -> Result<(), ParamError>
        ensures { answer_refusal error_refusal result ≡ first_of (field_faults self) }
    {
        self.check_periods()?;
        check_range(Field::Bits, u32::from(self.bits), 2, 8)?;
        check_range(Field::QShift, u32::from(self.q_shift), 0, 15)?;
        check_range(Field::BlockLog2, u32::from(self.block_log2), 8, 15)?;
        check_range(Field::AgcInit, self.agc_init, 0, 0xff_ffff)?;
        self.check_integrator()?;
        check_range(Field::TedShift, u32::from(self.ted_shift), 0, 30)?;
        check_range(Field::KpShift, u32::from(self.kp_shift), 0, 40)?;
        check_range(Field::KiShift, u32::from(self.ki_shift), 0, 40)?;
        require(self.agc_shift <= 63, ParamError::AgcShift)?;
        self.check_delay()
    }
}
