// One sample: it is mixed and joins the line, a symbol is made if one falls due, and the time goes on (RULES 3).
//
// While a block runs, the state stands in two structs, numbers and rings: the compiler keeps a struct in the machine's registers only if no part of it is an
// array that is read at a computed place.
ghost use Rattle.std.specs.Prelude.{◌≡◌, ◌^◌, ◌<◌, ◌≤◌, true, unsigned_abs};
ghost use Rattle.params.specs.declared.Params.{Params};
ghost use Rattle.params.specs.Refusal.{nothing};
ghost use Rattle.params.specs.Judge.{judged};
ghost use Rattle.fixed.specs.declared.sample.Rings.{Rings};
ghost use Rattle.fixed.specs.Filter.{filtered};
ghost use Rattle.fixed.specs.Sample.{joined, symbol_of, with_symbol, without_symbol, falls, next, made_by};
ghost use Rattle.fixed.specs.Inside.{frontend_of, Ready, made};

use crate::filter::{self, Rows};
use crate::line::{self, Line};
use crate::mix::{self, Sample, Wheel};
use crate::queue::Queue;
use params::Sheet;
use registers::{Pending, Registers};
use state::RING_PLACES;
use symbol::{Sums, Symbol};

// The state's numbers, but for the sheet's. Clauses put a state together from these, the rings and the sheet (`frontend_of`): no Model of one struct is one.
// That the head is below the taps is asked where it is used: the taps are the sheet's, so no invariant of this struct can speak of them.
#[derive(Clone, Copy)]
pub(crate) struct Running {
    pub(crate) registers: Registers,
    // Where the line's newest stands.
    pub(crate) head: usize,
    pub(crate) queue: Queue,
    pub(crate) samples: u64,
}

// The rings: the line as the filter takes it, and the waiting errors.
#[derive(Drop)]
pub(crate) struct Rings {
    pub(crate) line: Line,
    pub(crate) pending: [Pending; RING_PLACES],
}

impl Running {
    // Steps 1 and 2: the sample is mixed, the phase word goes on, and the mixed sample is the line's newest.
    fn join(&mut self, rings: &mut Rings, sheet: &Sheet<'_>, wheel: &Wheel, sample: Sample)
        requires { (self.old.head < sheet.now.params.taps) × (sheet.now.params.taps ≤ 64) }
        ensures { frontend_of sheet.now.params self.new rings.new
            ≡ joined sheet.now (frontend_of sheet.now.params self.old rings.old) (record { i = sample.i; q = sample.q }) }
    {
        let head = line::next_head(sheet.params.taps as usize, self.head);
        rings.line.set(head, wheel.mix(self.registers.nco, sample));
        self.head = head;
        self.registers.nco = mix::next_nco(self.registers.nco, sheet.params.nco_step);
    }

    // The three banks' sums over the line: only row `phase` of each bank goes to the filter.
    fn sums_at(&self, rings: &Rings, sheet: &Sheet<'_>, phase: usize) -> [Sums; 3]
        requires accepted { judged sheet.now ≡ nothing }
        requires bounds { (self.now.head < sheet.now.params.taps) × (phase < 64) }
        ensures { result ≡ filtered sheet.now phase rings.now.line self.now.head }
    {
        let taps = sheet.params.taps as usize;
        let a = phase * taps;
        let b = a + taps;
        let rows = Rows {
            h: &sheet.h[a..b],
            g: &sheet.g[a..b],
            k: &sheet.k[a..b],
        };
        filter::filter(&rows, &rings.line, self.head)
    }

    // Step 3 with a symbol. The registers step first: the symbol reports the gain and the period that they then have.
    fn make_symbol(&mut self, rings: &mut Rings, sheet: &Sheet<'_>) -> Symbol
        requires ready { Ready sheet.now (frontend_of sheet.now.params self.old rings.old) }
        requires falls { falls (frontend_of sheet.now.params self.old rings.old) ≡ true }
        ensures symbol { result ≡ symbol_of sheet.now (frontend_of sheet.now.params self.old rings.old) }
        ensures state { frontend_of sheet.now.params self.new rings.new ≡ with_symbol sheet.now (frontend_of sheet.now.params self.old rings.old) }
    {
        let p = sheet.params;
        let phase = (self.registers.t_acc >> 18) as usize;
        let due = self.queue.due(&rings.pending, p.delay);
        self.registers.step(p, due);
        let sums = self.sums_at(rings, sheet, phase);
        let symbol = Symbol::make(
            p,
            self.registers.gain(),
            self.registers.period,
            self.samples,
            phase as u8,
            sums,
        );
        self.queue.join(
            &mut rings.pending,
            p.delay,
            Pending {
                e: symbol.e,
                err: symbol.err,
            },
        );
        self.samples += 1;
        symbol
    }

    // Step 3 without a symbol: only the time goes on.
    fn go_on(&mut self)
        requires { (unsigned_abs self.old.registers.t_acc ≤ 2 ^ 61) × (self.old.samples < 9223372036854775807) }
        ensures { (p : Params) (rings : Rings) → frontend_of p self.new rings ≡ without_symbol (frontend_of p self.old rings) }
    {
        self.registers.t_acc -= 0x100_0000;
        self.samples += 1;
    }

    // Pushes one sample; a symbol is made at it, or none.
    pub(crate) fn push(
        &mut self,
        rings: &mut Rings,
        sheet: &Sheet<'_>,
        wheel: &Wheel,
        sample: Sample,
    ) -> Option<Symbol>
        requires { Ready sheet.now (frontend_of sheet.now.params self.old rings.old) }
        ensures state { frontend_of sheet.now.params self.new rings.new
            ≡ next sheet.now (frontend_of sheet.now.params self.old rings.old) (record { i = sample.i; q = sample.q }) }
        ensures symbol { made result ≡ made_by sheet.now (frontend_of sheet.now.params self.old rings.old) (record { i = sample.i; q = sample.q }) }
    {
        self.join(rings, sheet, wheel, sample);
        if self.registers.t_acc < 0x100_0000 {
            return Some(self.make_symbol(rings, sheet));
        }
        self.go_on();
        None
    }
}
