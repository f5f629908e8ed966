// What holds of numbers and lines as text. The functions do nothing: the contract of each is a claim of specs/, and the check proves it.
ghost use Rattle.text.specs.Inverse.{Inverse};
ghost use Rattle.text.specs.Lines.{Settled};

// What is printed of a number reads as that number, and what reads as a number is what is printed of it.
pub fn inverse_holds()
    ensures { Inverse }
{}

// Where a line has ended or is too long, bytes behind it change nothing.
#[tactic(auto, using(crate::proofs::Ends::settled))]
pub fn settled()
    ensures { Settled }
{}
