// What holds of sheets and states as places. The functions do nothing: the contract of each is a claim of specs/Crossing.antt, and the check proves it.
ghost use Rattle.places.specs.Crossing.{SheetsCross, StatesCross};

// A sheet, written to places and read again, is the same; its places, read and written again, hold what they held.
#[tactic(auto, using(crate::proofs::Sheets::sheets_cross))]
pub fn sheets_cross()
    ensures { SheetsCross }
{}

// The same of a state and its three slices.
#[tactic(auto, using(crate::proofs::Crossing::states_cross))]
pub fn states_cross()
    ensures { StatesCross }
{}
