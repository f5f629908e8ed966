// Replays the oracle's answers to whole calls: judging a sheet, the offset of a period, starting, blocks of samples, readings, retunes. Standard input has a
// row for each part of a call; the program makes the call and counts where it answers something else.
//
// A row's numbers stand for an answer (answer.rt) or a state (states.rt), and calls.rt does what the row says.
#![tactic(auto)]

mod answer;
mod calls;
mod states;

use calls::Calls;
use rows::Report;
use std::io;

// As in the other replays but for what is replayed, a row's places and the report's words: a function for all three would take these, and be no shorter.
fn main(rt: HostRuntime) -> io::Result<()> {
    let tally = rows::run(&mut rt.stdin(), &mut [0; 8192], &mut Calls::new())?;
    let report = Report {
        tally,
        of: "of calls",
        first: "is answer",
    };
    println!(rt; "{report}")
}
