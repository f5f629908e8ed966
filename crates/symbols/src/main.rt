// The symbol program: a sheet and samples in decimal on standard input, each symbol's places on standard output (RULES 7.2, 7.3).
//
// The input goes through one buffer, line by line (input.rt). The first 193 lines are the sheet with its banks (sheet.rt); then the pairs go through the front
// end in blocks (run.rt), and their symbols through a page to the output (output.rt). The memory is the same however long the input is.
#![tactic(auto)]

mod input;
mod output;
mod run;
mod sheet;
mod stop;

use input::Input;
use output::Output;
use stop::Stop;

fn main(rt: HostRuntime) {
    let mut input = Input::new(rt.stdin(), rt.stderr());
    let mut output = Output::new(rt.stdout(), rt.stderr());
    let mut ended = run::run(&mut input, &mut output);
    if let Err(Stop::Refused { number, line }) = ended {
        ended = output.put_refusal(number, line);
    }
    // What failed is told, and what waits for it is lost; what waits for nothing that failed is written.
    let _ = ended;
    let _ = output.flush();
}
