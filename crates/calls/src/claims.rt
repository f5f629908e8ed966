// What holds of the sheet that a design makes. The function does nothing: its contract is the claim of specs/Made.antt, and the check proves it.
ghost use Rattle.calls.specs.Made.{DesignsCross};

// The sheet that a design's call wrote reads as the design's, and judging accepts it with the same banks.
#[tactic(auto, using(crate::proofs::Made::designs_cross))]
pub fn designs_cross()
    ensures { DesignsCross }
{}
