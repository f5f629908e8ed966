// A block: samples in, symbols out (RULES 4).
//
// The state is taken apart for the time that the block runs, and put together at its end.
ghost use Rattle.std.specs.Prelude.{◌≡◌, ◌+◌, ◌*◌, ◌/◌, ◌≤◌, true, length};
ghost use Rattle.params.specs.Judge.{judged};
ghost use Rattle.params.specs.Refusal.{nothing};
ghost use Rattle.state.specs.Check.{good_state};
ghost use Rattle.fixed.specs.Sample.{after, emitted};
ghost use Rattle.fixed.specs.Block.{pairs_of};
ghost use Rattle.fixed.specs.Inside.{running_of, rings_of, frontend_of, Writes};

use crate::line::Line;
use crate::mix::{Sample, Wheel};
use crate::queue::Queue;
use crate::sample::{Rings, Running};
use params::Sheet;
use state::Frontend;

// What a block has written: how many symbols, and their clips.
#[derive(Clone, Copy)]
pub(crate) struct Written {
    pub(crate) count: usize,
    pub(crate) clips: usize,
}

impl Rings {
    // The rings of a state.
    pub(crate) fn of(f: &Frontend) -> Rings
        ensures { result ≡ rings_of f.now }
    {
        Rings {
            line: Line::raised(&f.line),
            pending: f.pending,
        }
    }
}

impl Running {
    // Its numbers, but for the sheet's.
    pub(crate) fn of(f: &Frontend) -> Running
        ensures { result ≡ running_of f.now }
    {
        Running {
            registers: f.registers,
            head: f.head,
            queue: Queue {
                oldest: f.oldest,
                waiting: f.waiting,
            },
            samples: f.samples,
        }
    }

    // And put together again.
    pub(crate) fn put(&self, rings: &Rings, f: &mut Frontend)
        ensures { f.new ≡ frontend_of f.old.params self.now rings.now }
    {
        f.registers = self.registers;
        f.line = rings.line.lowered();
        f.head = self.head;
        f.pending = rings.pending;
        f.oldest = self.queue.oldest;
        f.waiting = self.queue.waiting;
        f.samples = self.samples;
    }

    // All samples of a block.
    pub(crate) fn run(
        &mut self,
        rings: &mut Rings,
        sheet: &Sheet<'_>,
        values: &[i16],
        out: &mut [i64],
    ) -> Written
        requires accepted { judged sheet.now ≡ nothing }
        requires good { good_state sheet.now.params (frontend_of sheet.now.params self.old rings.old) ≡ true }
        requires room { (20 * (length values.now / 2) ≤ length out.old) × (self.old.samples + length values.now / 2 ≤ 9223372036854775807) }
        ensures state { frontend_of sheet.now.params self.new rings.new
            ≡ after sheet.now (frontend_of sheet.now.params self.old rings.old) (pairs_of values.now) }
        ensures written { Writes (emitted sheet.now (frontend_of sheet.now.params self.old rings.old) (pairs_of values.now))
            out.old out.new result.count result.clips }
    {
        let wheel = Wheel::new();
        let mut count = 0;
        let mut clips = 0;
        // By number, since the definitions count pairs; of a chunk its two places would be read just so.
        for n in 0..values.len() / 2 {
            let sample = Sample {
                i: values[2 * n],
                q: values[2 * n + 1],
            };
            if let Some(y) = self.push(rings, sheet, &wheel, sample) {
                count = y.put(count, &mut *out);
                clips += usize::from(y.clips);
            }
        }
        Written { count, clips }
    }
}
