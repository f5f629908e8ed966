// The fixed-point front end: what it makes of samples, from the state before them (crates/state) to their symbols and the state after them.
//
// A sample I, Q (16 bits each) goes through these steps; R(v, s) is v / 2^s rounded to the nearest whole number, a half upward, and >> rounds down.
//
//  1. Mixer (mix.rt), with w the cosine wheel of 1,024 steps:
//       i = nco >> 22, c = w[i], s = w[i + 768]
//       re = (I c - Q s + 2^14) >> 15, im = (I s + Q c + 2^14) >> 15           32 bits
//       nco = nco + nco_step                                                  modulo 2^32
//  2. Line (line.rt): the pair is the newest of the last `taps`.
//  3. If t < 2^24 a symbol is made (sample.rt):
//       phase = t >> 18                                                       0 to 63
//     a. Loop (crates/registers), if `delay` errors wait (queue.rt), with the oldest e and err:
//          v = v + R(ki e, ki_shift)                                          within +-integrator_max 2^16
//          period = nominal + (v >> 16) + R(kp e, kp_shift)                   min to max
//          acc = acc + (err >> agc_shift)                                     24 bits
//     b. Filters (filter.rt), over the line newest first and in two runs, row `phase` of h, g and k:
//          three sums each for I and Q                                        64 bits
//     c. Symbol (crates/symbol):
//          y, dy, yk = R(sum, 14)                                             16 bits, clipped, and counted where it is
//          z, dz, zk = R(y gain, 10) and so on, gain = acc >> 8               likewise
//          q = R(zk, q_shift)                                                 `bits` bits, clamped
//          e = (z_i dz_i + z_q dz_q) >> ted_shift                             24 bits, clamped
//          err = agc_target - ((zk_i^2 + zk_q^2) >> 12)                       32 bits, wrapped
//     d. e and err wait (queue.rt); t = t + period.
//     Then, with a symbol or without, t = t - 2^24, and one more sample is counted.
//
// A block (block.rt) takes samples one after the other and writes 20 places a symbol.
#![tactic(auto)]

mod block;
mod claims;
mod filter;
mod line;
mod mix;
mod queue;
mod sample;

ghost use Rattle.std.specs.Prelude.{◌≡◌, [], length, Ok};
ghost use Rattle.state.specs.Check.{block_faults};
ghost use Rattle.fixed.specs.Block.{accepted, block_of, processed};

use crate::sample::{Rings, Running};
pub use claims::{one_step, two_runs};
use params::Sheet;
use state::{Frontend, FrontendError};

// What a block answers: how many pairs it took, how many symbols it wrote, and their clips in all. Its zeros stand for a block that is refused.
#[derive(Clone, Copy, Default)]
pub struct Processed {
    pub taken: usize,
    pub count: usize,
    pub clips: usize,
}

// A block of samples, I before Q; the places of its symbols go to `out`, 20 each (RULES 4). With a short `out` it takes fewer pairs than it is given: its
// caller goes on from `taken`. Where it is refused, state and output are left as they were.
#[tactic(auto, using(crate::proofs::Refused::refused_block, crate::proofs::Refused::accepted_block, crate::proofs::Refused::faults_none))]
pub fn process(
    f: &mut Frontend,
    sheet: &Sheet<'_>,
    values: &[i16],
    out: &mut [i64],
) -> Result<Processed, FrontendError>
    ensures { processed result f.new out.new ≡ block_of sheet.now f.old values.now out.old }
{
    f.check_block(sheet, values.len(), out.len())?;
    Ok(run(f, sheet, values, out))
}

// The sheet, in a place of the block's own: what is written to `out` can't change it there, so the compiler reads its fields once a block, and not once a
// symbol.
fn own_sheet<'a>(sheet: &Sheet<'a>) -> Sheet<'a>
    ensures { result ≡ sheet.now }
{
    Sheet {
        params: sheet.params,
        h: sheet.h,
        g: sheet.g,
        k: sheet.k,
    }
}

// A block that nothing refuses: it goes through those samples that have places for a symbol. The sheet given is the held one, or 9 had refused it: so the
// state goes on holding its own.
fn run(f: &mut Frontend, sheet: &Sheet<'_>, values: &[i16], out: &mut [i64]) -> Processed
    requires { block_faults sheet.now f.old (length values.now) (length out.old) ≡ [] }
    ensures { processed (Ok result) f.new out.new ≡ accepted sheet.now f.old values.now out.old }
{
    let taken = state::pairs_taken(values.len(), out.len());
    let sheet = own_sheet(sheet);
    let mut running = Running::of(f);
    let mut rings = Rings::of(f);
    let written = running.run(&mut rings, &sheet, &values[..2 * taken], out);
    running.put(&rings, f);
    Processed {
        taken,
        count: written.count,
        clips: written.clips,
    }
}
