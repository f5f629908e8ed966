// Replays the oracle's answers for the leaves of the path: its arithmetic and the cosine wheel. Standard input has a row for each call,
// `function,a,b,c,answer`; the program makes the same call and counts where it answers something else.
#![tactic(auto)]

use rows::{Replay, Report};
use std::io;

// The leaves, with the wheel that the mixer reads.
#[derive(Drop)]
struct Leaves {
    wheel: &'static [i16; 1024],
}

impl Leaves {
    // What the function of that number gives. The numbers are the oracle's (oracle/driver/src/leaves.rs).
    fn answer(&self, function: i64, a: i64, b: i64, c: i64) -> i64 {
        match function {
            0 => arith::round_shift(a, arith::wrap_u32(b)),
            1 => arith::shift_right(a, arith::wrap_u32(b)),
            3 => arith::clamp(a, b, c),
            4 => i64::from(arith::sat16(a).value),
            5 => i64::from(arith::wrap_u32(a)),
            6 => i64::from(arith::wrap_i32(a)),
            _ => i64::from(self.wheel[arith::wrap_u32(a) as usize % 1024]),
        }
    }
}

impl Replay for Leaves {
    fn take(&mut self, numbers: &[i64]) -> Option<bool> {
        match numbers {
            [function, a, b, c, answer] => Some(self.answer(*function, *a, *b, *c) == *answer),
            _ => Some(false),
        }
    }
}

// As in the other replays but for what is replayed, a row's places and the report's words: a function for all three would take these, and be no shorter.
fn main(rt: HostRuntime) -> io::Result<()> {
    let mut leaves = Leaves {
        wheel: tables::cos_table(),
    };
    let tally = rows::run(&mut rt.stdin(), &mut [0; 5], &mut leaves)?;
    let report = Report {
        tally,
        of: "of the leaves",
        first: "in row",
    };
    println!(rt; "{report}")
}
