// The worked cases, stated in specs/ and proved by computation. There is no code here but for a function that does nothing, whose contract they are: what the
// code answers is what its definitions say.
#![tactic(auto)]

ghost use Rattle.cases.specs.Worked.{Worked};

#[tactic(auto, using(crate::proofs::Worked::worked))]
pub fn worked_cases()
    ensures { Worked }
{}
