// The rows of the banks: how large their coefficients are, and where those of the timing detector stand.
//
// A sheet is judged at every call, so an accepted bank costs one pass over its rows: where a row's magnitudes sum to 131071 at most, each of its
// coefficients fits 18 bits too, and where they sum to what the detector's own places sum to, the others are zero. What exactly is wrong with a row is
// looked for only in one that is refused.
ghost use Rattle.std.specs.Prelude.{◌≡◌, ◌≢◌, ◌+◌, ◌-◌, ◌*◌, ◌/◌, ◌<◌, ◌≤◌, min, true, length, unsigned_abs, IfOk, IfSome};
ghost use Rattle.params.specs.Refusal.{bank_number, error_refusal, answer_refusal, first_of};
ghost use Rattle.params.specs.declared.Bank.{Bank};
ghost use Rattle.params.specs.Banks.{magnitudes, row_of, row_faults, rows_faults, zero_outside, rows_outside, bank_faults};

use crate::refusal::require;
use crate::{Bank, ParamError, Sheet};
use std::marker::Model;
use std::ops::Range;

// The timing detector's places of a row: the eight in the middle, or all of a row that has fewer.
pub fn detector_of(taps: usize) -> Range<usize>
    ensures { (result.start ≡ (taps - 8) / 2) × (result.end ≡ result.start + min 8 taps) }
{
    let low = taps.saturating_sub(8) / 2;
    low..low + taps.min(8)
}

// The sum of a row's magnitudes, where each of them is small: no bit above the lower 17 is set in any. It is taken in 32 bits and without a branch: of four
// magnitudes the machine then adds each to its own sum at once. Where some were large, the sum may have wrapped.
#[tactic(auto, using(crate::proofs::Rows::one_more), unfolding(crate::specs::Banks::magnitudes))]
fn narrow_sum(row: &[i32]) -> Option<u32>
    requires { length row.now ≤ 64 }
    ensures { IfSome result (λ sum. sum ≡ magnitudes row.now) }
{
    let mut sum: u32 = 0;
    let mut bits = 0;
    for c in row {
        let m = c.unsigned_abs();
        sum = sum.wrapping_add(m);
        bits |= m;
    }
    (bits <= 131071).then_some(sum)
}

// The sum of a row's magnitudes.
#[tactic(auto, using(crate::proofs::Rows::one_more), unfolding(crate::specs::Banks::magnitudes))]
fn magnitude_sum(row: &[i32]) -> u64
    requires { length row.now ≤ 64 }
    ensures { result ≡ magnitudes row.now }
{
    match narrow_sum(row) {
        Some(sum) => u64::from(sum),
        None => row.iter().map(|c| u64::from(c.unsigned_abs())).sum(),
    }
}

// A row with the sum of its magnitudes.
#[derive(Drop)]
struct Row<'a> {
    coefficients: &'a [i32],
    sum: u64,
}

impl<'a> Model for Row<'a> {
    ghost use Rattle.std.specs.Prelude.{◌≡◌, ◌≤◌, List, ℤ, length};
    ghost use Rattle.params.specs.Banks.{magnitudes};

    ghost Value = { List ℤ };

    ghost view = { λ r. r.coefficients.now };

    ghost invariant = { λ r. record { short : length r.coefficients.now ≤ 64; summed : r.sum ≡ magnitudes r.coefficients.now } };
}

impl<'a> Row<'a> {
    fn new(coefficients: &'a [i32]) -> Row<'a>
        requires { length coefficients.now ≤ 64 }
        ensures { result ≡ coefficients.now }
    {
        Row {
            coefficients,
            sum: magnitude_sum(coefficients),
        }
    }

    // What is wrong with the row: where its sum is too large, its first coefficient outside 18 bits, or else the sum.
    #[tactic(auto, using(crate::proofs::Rows::coefficients), unfolding(crate::specs::Banks::coefficient_faults))]
    fn check(&self, bank: Bank, phase: usize) -> Result<(), ParamError>
        ensures { answer_refusal error_refusal result ≡ first_of (row_faults (bank_number bank) phase self.now) }
    {
        let sum = self.sum;
        if sum <= 131071 {
            return Ok(());
        }
        for &value in self.coefficients {
            if !(-131072..=131071).contains(&value) {
                return Err(ParamError::Coefficient { bank, phase, value });
            }
        }
        Err(ParamError::CoefficientSum { bank, phase, sum })
    }

    // Whether it is zero outside the detector's places: then those have all that there is of its magnitudes. A row of eight or fewer has no others.
    #[tactic(auto, using(crate::proofs::Rows::middle))]
    fn is_centred(&self) -> bool
        ensures { result ≡ zero_outside (length self.now) 0 self.now }
    {
        let row = self.coefficients;
        row.len() <= 8 || magnitude_sum(&row[detector_of(row.len())]) == self.sum
    }
}

// Why the first row that is refused is so, or whether all are zero outside the detector's places. The output's bank may have any coefficients there.
#[tactic(auto, using(crate::proofs::RowsOf::rows), unfolding(crate::specs::Banks::rows_faults, crate::specs::Banks::rows_outside))]
fn check_rows(bank: Bank, cs: &[i32], taps: usize) -> Result<bool, ParamError>
    requires taps { (0 < taps) × (taps ≤ 64) }
    requires long { length cs.now ≡ 64 * taps }
    ensures refused { answer_refusal error_refusal result ≡ first_of (rows_faults taps (bank_number bank) cs.now 0 64) }
    ensures centred { bank ≢ Bank.K → IfOk result (λ centred. centred ≡ rows_outside taps cs.now 0 64) }
{
    let mut centred = true;
    for (phase, coefficients) in cs.chunks_exact(taps).enumerate() {
        let row = Row::new(coefficients);
        row.check(bank, phase)?;
        centred = centred && (bank == Bank::K || row.is_centred());
    }
    Ok(centred)
}

impl Sheet<'_> {
    // 3 and 4 of the three banks, then 5 of h and of g.
    #[tactic(auto, using(crate::proofs::Faults::kinds), unfolding(crate::specs::Banks::bank_faults))]
    pub(crate) fn check_banks(&self) -> Result<(), ParamError>
        requires taps { (0 < self.now.params.taps) × (self.now.params.taps ≤ 64) }
        requires long { (length self.now.h ≡ 64 * self.now.params.taps)
            × ((length self.now.g ≡ 64 * self.now.params.taps) × (length self.now.k ≡ 64 * self.now.params.taps)) }
        ensures { answer_refusal error_refusal result ≡ first_of (bank_faults self.now.params.taps self.now.h self.now.g self.now.k) }
    {
        let taps = self.params.taps as usize;
        let h_centred = check_rows(Bank::H, self.h, taps)?;
        let g_centred = check_rows(Bank::G, self.g, taps)?;
        check_rows(Bank::K, self.k, taps)?;
        require(h_centred, ParamError::DetectorTaps { bank: Bank::H })?;
        require(g_centred, ParamError::DetectorTaps { bank: Bank::G })
    }
}
