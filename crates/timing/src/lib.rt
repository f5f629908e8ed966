// Lists of blocks and commits from a fresh start, and what holds of every one of them. The theorem is about the definitions that the contracts of
// `Frontend::new`, `fixed::process`, `Frontend::read`, `retune::ask` and `retune::commit` name. So the functions here do nothing: the contract of each is a
// claim of specs/Timing.antt, and the check proves it.
#![tactic(auto)]

ghost use Rattle.timing.specs.Timing.{TimingHolds, AlikeAhead, WithoutCommits, StatesGoOn, TicketsHold, ClipsFew, CallsAdvance, OffersEnd};

// Symbols lie where the periods before them say, errors act behind the delay, and how samples are cut into blocks changes nothing.
#[tactic(auto, using(crate::proofs::Timing::timing_holds))]
pub fn timing_holds()
    ensures { TimingHolds }
{}

// The same, of two lists whose commits are the same.
#[tactic(auto, using(crate::proofs::Timing::alike_lists))]
pub fn alike_ahead()
    ensures { AlikeAhead }
{}

// Lists of blocks alone are such lists.
#[tactic(auto, using(crate::proofs::Timing::without_commits))]
pub fn without_commits()
    ensures { WithoutCommits }
{}

// Behind a list, what can be refused.
#[tactic(auto, using(crate::proofs::GoOn::states_go_on))]
pub fn states_go_on()
    ensures { StatesGoOn }
{}

// A ticket holds until the next symbol.
#[tactic(auto, using(crate::proofs::Tickets::tickets_hold))]
pub fn tickets_hold()
    ensures { TicketsHold }
{}

// Twelve clips a symbol at most.
#[tactic(auto, using(crate::proofs::Clips::clips_few))]
pub fn clips_few()
    ensures { ClipsFew }
{}

// A block that refuses nothing takes a pair.
#[tactic(auto, using(crate::proofs::Advance::calls_advance))]
pub fn calls_advance()
    ensures { CallsAdvance }
{}

// So whoever offers what is left comes to an end.
#[tactic(auto, using(crate::proofs::Offers::offers_end))]
pub fn offers_end()
    ensures { OffersEnd }
{}
