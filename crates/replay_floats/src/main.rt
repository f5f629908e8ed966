// Replays the oracle's answers on floats: samples, the registers of designs, and whole sheets of designs that are judged. Standard input has a row for each
// answer, and rows of the banks and gains that a sheet takes; the program makes the call and counts where it answers something else.
//
// answers.rt has what the calls answer in the numbers of a row, and calls.rt does what the row says.
#![tactic(auto)]

mod answers;
mod calls;

use calls::Floats;
use rows::Report;
use std::io;

// As in the other replays but for what is replayed, a row's places and the report's words: a function for all three would take these, and be no shorter.
fn main(rt: HostRuntime) -> io::Result<()> {
    let tally = rows::run(&mut rt.stdin(), &mut [0; 8192], &mut Floats::new())?;
    let report = Report {
        tally,
        of: "on floats",
        first: "is answer",
    };
    println!(rt; "{report}")
}
