// What holds of the path. The functions do nothing: the contract of each is a claim of specs/, and the check proves it.
ghost use Rattle.fixed.specs.TwoRuns.{TwoRuns};
ghost use Rattle.fixed.specs.OneStep.{OneStep};

// The sums of any row over any line are those of its two runs together.
#[tactic(auto, using(crate::proofs::TwoRuns::two_runs))]
pub fn two_runs()
    ensures { TwoRuns }
{}

// A symbol changes the registers of a good state as a step does, and in no other way.
#[tactic(auto, using(crate::proofs::OneStep::one_step))]
pub fn one_step()
    ensures { OneStep }
{}
