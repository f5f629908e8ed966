// The line of the last mixed samples, as a block keeps it while it runs (RULES 3.4).
//
// Each component is an array of its own, in which it stands once, at the places that the ring has in a state. The numbers are raised by 2^31, so that none is
// below zero, and have 64 bits each: the machine multiplies unsigned numbers of 32 bits two at a time, and takes each from the lower half of 64 bits.
ghost use Rattle.std.specs.Prelude.{◌≡◌, ◌<◌, slice_set};
ghost use Rattle.fixed.specs.Line.{next_head};
ghost use Rattle.fixed.specs.Raised.{lowered};

use state::Pair;
use std::marker::Model;

#[derive(Drop)]
pub(crate) struct Line {
    pub(crate) i: [u64; 64],
    pub(crate) q: [u64; 64],
}

impl Model for Line {
    ghost use Rattle.std.specs.Prelude.{List};
    ghost use Rattle.state.specs.declared.Pair.{Pair};
    ghost use Rattle.fixed.specs.Raised.{In32, paired};

    ghost Value = { List Pair };

    ghost view = { λ l. paired l.i l.q };

    ghost invariant = { λ l. In32 64 l.i × In32 64 l.q };
}

fn raise(x: i32) -> u64
    ensures stands { lowered result ≡ x }
    ensures small { result < 4294967296 }
{
    (i64::from(x) + 0x8000_0000) as u64
}

pub(crate) fn lower(u: u64) -> i64
    requires { u < 4294967296 }
    ensures { result ≡ lowered u }
{
    u as i64 - 0x8000_0000
}

// Where the next sample goes: one position down, and from 0 to the last. Its contract names the rule's definition, which no method of the library does.
#[tactic(auto, unfolding(crate::specs::Line::next_head))]
pub(crate) fn next_head(taps: usize, head: usize) -> usize
    requires { head < taps }
    ensures { result ≡ next_head taps head }
{
    if head == 0 { taps - 1 } else { head - 1 }
}

impl Line {
    // A state's line.
    pub(crate) fn raised(line: &[Pair; 64]) -> Line
        ensures { result ≡ line.now }
    {
        let mut i = [0u64; 64];
        let mut q = [0u64; 64];
        for (n, m) in line.iter().enumerate() {
            i[n] = raise(m.i);
            q[n] = raise(m.q);
        }
        Line { i, q }
    }

    // And back. By number, as it is one place in three arrays.
    pub(crate) fn lowered(&self) -> [Pair; 64]
        ensures { result ≡ self.now }
    {
        let mut line = [Pair::default(); 64];
        for n in 0..64 {
            line[n] = Pair {
                i: lower(self.i[n]) as i32,
                q: lower(self.q[n]) as i32,
            };
        }
        line
    }

    // A pair takes the place `at`.
    pub(crate) fn set(&mut self, at: usize, m: Pair)
        requires { at < 64 }
        ensures { self.new ≡ slice_set self.old at m }
    {
        self.i[at] = raise(m.i);
        self.q[at] = raise(m.q);
    }
}
