// Designs: from rates to the registers of a sheet, and to a whole sheet that is judged.
#![tactic(auto)]

ghost use Rattle.std.specs.Prelude.{◌≡◌, ◌&&◌, leb};
ghost use Rattle.design.specs.Refusal.{design_refusal, sheet_refusal, design_answer, sheet_answer};
ghost use Rattle.design.specs.Registers.{sps_of, registers_of};
ghost use Rattle.design.specs.Design.{good_sps, good_trim, design_of, params_of, sheet_of_design};

use params::{ParamError, Params, Sheet};

// What a receiver is built for (RULES 6.3).
#[derive(Clone, Copy)]
pub struct Design {
    // Samples and symbols a second.
    pub sample_rate: f64,
    pub symbol_rate: f64,
    // How far the carrier is off, in Hz: the mixer turns it back.
    pub carrier_offset: f64,
    // Where the output is taken, in symbols from where the loop settles: -0.5 to 0.5. Only a design's banks depend on it, and no register.
    pub trim: f64,
    // Level that the gain loop holds, as a fraction of 16 bits' full scale.
    pub agc_rms: f64,
    // Taps of a row, bits of an output component, and log2 of a block's symbols.
    pub taps: u32,
    pub bits: u8,
    pub block_log2: u8,
}

// The fields of a sheet that a design determines. The delay is 24 symbols in every design.
#[derive(Clone, Copy)]
pub struct DesignRegisters {
    pub taps: u32,
    pub nco_step: i32,
    pub period_nominal: u32,
    pub period_min: u32,
    pub period_max: u32,
    pub ted_shift: u8,
    pub integrator_max: i32,
    pub agc_init: u32,
    pub agc_target: u32,
    pub agc_shift: u8,
    pub bits: u8,
    pub block_log2: u8,
    pub delay: u8,
}

// The fields of a sheet that a design leaves open: the loop's two gains with their shifts, and the shift of the output.
#[derive(Clone, Copy, Default)]
pub struct Gains {
    pub kp: i16,
    pub kp_shift: u8,
    pub ki: i16,
    pub ki_shift: u8,
    pub q_shift: u8,
}

// Why a design is refused (RULES 6.3).
#[derive(Clone, Copy, PartialEq, Debug)]
pub enum DesignError {
    SamplesPerSymbol { sps: f64 },
    Taps,
    Bits,
    Trim { trim: f64 },
}

// Why a sheet that is made from a design is refused: by its design, or by the judge.
#[derive(Clone, Copy, PartialEq, Debug)]
pub enum SheetError {
    Design(DesignError),
    Params(ParamError),
}

impl From<DesignError> for SheetError {
    ghost use Rattle.design.specs.declared.SheetError.{SheetError};

    ghost from_gives = { λ e f. f ≡ SheetError.Design e };

    fn from(e: DesignError) -> SheetError {
        SheetError::Design(e)
    }
}

impl From<ParamError> for SheetError {
    ghost use Rattle.design.specs.declared.SheetError.{SheetError};

    ghost from_gives = { λ e f. f ≡ SheetError.Params e };

    fn from(e: ParamError) -> SheetError {
        SheetError::Params(e)
    }
}

// ---- the numbers of refusals
//
// Text and C have no enums: there a refusal is its number alone. What else it carries does not cross.

impl DesignError {
    pub fn number(self) -> u32
        ensures { result ≡ (design_refusal self).number }
    {
        match self {
            DesignError::SamplesPerSymbol { .. } => 14,
            DesignError::Taps => 15,
            DesignError::Bits => 16,
            DesignError::Trim { .. } => 17,
        }
    }
}

impl SheetError {
    pub fn number(self) -> u32
        ensures { result ≡ (sheet_refusal self).number }
    {
        match self {
            SheetError::Design(e) => e.number(),
            SheetError::Params(e) => e.number(),
        }
    }
}

// ---- a design, judged

// 14. Two tests and not `contains`: so it shows that the first refuses a NaN.
#[tactic(auto, using(crate::proofs::Literals::literals), unfolding(crate::specs::Design::good_sps))]
fn is_good_sps(sps: f64) -> bool
    ensures { result ≡ good_sps sps }
{
    sps >= 1.0625 && sps < 4.0
}

// 16.
fn is_good_bits(bits: u8) -> bool
    ensures { result ≡ (leb 2 bits && leb bits 8) }
{
    (2..=8).contains(&bits)
}

// 17. The first test refuses a NaN here too.
#[tactic(auto, using(crate::proofs::Literals::literals), unfolding(crate::specs::Design::good_trim))]
fn is_good_trim(trim: f64) -> bool
    ensures { result ≡ good_trim trim }
{
    trim >= -0.5 && trim <= 0.5
}

impl Design {
    // Samples from one symbol to the next.
    #[tactic(auto, unfolding(crate::specs::Registers::sps_of))]
    fn sps(self) -> f64
        ensures { result ≡ sps_of self }
    {
        self.sample_rate / self.symbol_rate
    }

    // The registers of a design (RULES 6.3).
    #[tactic(auto, using(crate::proofs::Answers::one_by_one), unfolding(crate::specs::Design::design_of, crate::specs::Design::design_faults))]
    pub fn registers(self) -> Result<DesignRegisters, DesignError>
        ensures { design_answer result ≡ design_of self }
    {
        let sps = self.sps();
        if !is_good_sps(sps) {
            return Err(DesignError::SamplesPerSymbol { sps });
        }
        if !params::is_good_taps(self.taps) {
            return Err(DesignError::Taps);
        }
        if !is_good_bits(self.bits) {
            return Err(DesignError::Bits);
        }
        let trim = self.trim;
        if !is_good_trim(trim) {
            return Err(DesignError::Trim { trim });
        }
        Ok(self.registers_at(sps))
    }

    // The whole sheet of a design, judged with its banks (RULES 6.4). A design that is accepted says nothing of its sheet: at 3.95 samples a symbol the largest
    // period is past its bound. The banks come one by one: the sheet that they are of is made here.
    #[tactic(auto, using(crate::proofs::Answers::answers))]
    pub fn params(self, gains: Gains, h: &[i32], g: &[i32], k: &[i32]) -> Result<Params, SheetError>
        ensures { sheet_answer result ≡ sheet_of_design self gains h.now g.now k.now }
    {
        let params = self.registers()?.with_gains(gains);
        let sheet = Sheet { params, h, g, k };
        sheet.validate()?;
        Ok(params)
    }

    #[tactic(auto, unfolding(crate::specs::Registers::registers_of))]
    fn registers_at(self, sps: f64) -> DesignRegisters
        ensures { result ≡ registers_of self sps }
    {
        DesignRegisters {
            taps: self.taps,
            nco_step: steps::nco_step(self.carrier_offset, self.sample_rate),
            period_nominal: steps::period_nominal(sps),
            period_min: steps::period_min(sps),
            period_max: steps::period_max(sps),
            ted_shift: 8,
            integrator_max: steps::integrator_max(sps),
            agc_init: 0x4_0000,
            agc_target: steps::agc_target(self.agc_rms),
            agc_shift: 4,
            bits: self.bits,
            block_log2: self.block_log2,
            delay: 24,
        }
    }
}

impl DesignRegisters {
    // The sheet of these registers and gains.
    #[tactic(auto, unfolding(crate::specs::Design::params_of))]
    fn with_gains(self, gains: Gains) -> Params
        ensures { result ≡ params_of self gains }
    {
        Params {
            taps: self.taps,
            nco_step: self.nco_step,
            period_nominal: self.period_nominal,
            period_min: self.period_min,
            period_max: self.period_max,
            ted_shift: self.ted_shift,
            kp: gains.kp,
            kp_shift: gains.kp_shift,
            ki: gains.ki,
            ki_shift: gains.ki_shift,
            integrator_max: self.integrator_max,
            agc_init: self.agc_init,
            agc_target: self.agc_target,
            agc_shift: self.agc_shift,
            bits: self.bits,
            q_shift: gains.q_shift,
            block_log2: self.block_log2,
            delay: self.delay,
        }
    }
}
