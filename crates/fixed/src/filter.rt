// The filter: the sums of three rows over the line, in two runs (RULES 3.7).
//
// The line is a ring of `taps` places, whose newest number stands at `head`. The first run goes from there to the end of the line, the second from its
// beginning up to the newest, so that neither wraps. A row's first taps - head coefficients belong to the first run, the others to the second. Each run adds
// its own sums to those that it is given.
//
// The machine multiplies unsigned numbers two at a time. So the numbers of the line come raised by 2^31, and for the long row, that of k, each coefficient is
// raised here by 2^17. What that adds to the row's sum, 2^31 times the sum of its coefficients and 2^17 times the sum of the line's numbers, is taken off at
// the end. The rows of h and g have at most eight coefficients that count: too few to be worth it.
ghost use Rattle.std.specs.Prelude.{◌≡◌, ◌+◌, ◌<◌, ◌≤◌, [], ◌∷◌, length, ◌+ℤ◌, ◌*ℤ◌, unsigned_abs};
ghost use Rattle.fixed.specs.Filter.{sums_of};
ghost use Rattle.fixed.specs.Rows.{Row};
ghost use Rattle.fixed.specs.Inside.{Beside, SumsUpto, DetectedUpto, RaisedUpto, SummedUpto, one_tap_more, unraised_sums};
ghost use Rattle.fixed.specs.Inside.{Detects, Outputs, RunAdds};

use crate::line::{self, Line};
use std::marker::Model;
use symbol::Sums;

// The rows that the filter takes, one of each bank.
#[derive(Drop)]
pub(crate) struct Rows<'a> {
    pub(crate) h: &'a [i32],
    pub(crate) g: &'a [i32],
    pub(crate) k: &'a [i32],
}

impl<'a> Model for Rows<'a> {
    ghost use Rattle.fixed.specs.Rows.{ThreeRows, Filterable};

    ghost Value = { ThreeRows };

    ghost view = { λ r. record { h = r.h.now; g = r.g.now; k = r.k.now } };

    ghost invariant = { λ r. Filterable r.h.now r.g.now r.k.now };
}

// ---- rows of h and g

// The sums of a row of h and one of g, as far as they are taken.
#[derive(Clone, Copy, Default)]
struct Detected {
    h: Sums,
    g: Sums,
}

// A row's sums with one coefficient more, times the two numbers of the line that it meets.
fn with_products(s: Sums, c: i32, x: i64, y: i64) -> Sums
    requires sums_upto { SumsUpto 128 s }
    requires c_bound { (unsigned_abs c ≤ 131071) × ((unsigned_abs x ≤ 2147483648) × (unsigned_abs y ≤ 2147483648)) }
    ensures { result ≡ record { i = s.i +ℤ c *ℤ x; q = s.q +ℤ c *ℤ y } }
{
    let k = i64::from(c);
    Sums {
        i: s.i + k * x,
        q: s.q + k * y,
    }
}

// The two rows meet the same numbers of the line, so one pass takes both. By a number, as it is one place in four slices; zips of zips say it no plainer.
fn detector_run(before: Detected, h: &[i32], g: &[i32], i: &[u64], q: &[u64]) -> Detected
    requires row { Row h.now × (Row g.now × (length g.now ≡ length h.now)) }
    requires beside { Beside (length h.now) i.now q.now × DetectedUpto 64 before }
    ensures { Detects h.now g.now i.now q.now before result }
{
    let mut a = before.h;
    let mut b = before.g;
    for n in 0..h.len() {
        let x = line::lower(i[n]);
        let y = line::lower(q[n]);
        a = with_products(a, h[n], x, y);
        b = with_products(b, g[n], x, y);
    }
    Detected { h: a, g: b }
}

// ---- a row of k

// The sums of its raised coefficients times the line's numbers, of the coefficients themselves, and of the numbers, as far as they are taken.
#[derive(Clone, Copy, Default)]
struct Raised {
    i: u64,
    q: u64,
    coefficients: i32,
    line_i: u64,
    line_q: u64,
}

// The same of a row of k. The numbers of the line are below 2^32: their remainders are there for the compiler, which then takes each from the lower half of
// its 64 bits.
fn with_tap(s: Raised, c: i32, x: u64, y: u64) -> Raised
    requires raised_upto { RaisedUpto 128 s }
    requires c_bound { (unsigned_abs c ≤ 131071) × ((x < 4294967296) × (y < 4294967296)) }
    ensures { result ≡ one_tap_more s c x y }
{
    let k = u64::from((c + 131072) as u32);
    Raised {
        i: s.i + k * (x % 0x1_0000_0000),
        q: s.q + k * (y % 0x1_0000_0000),
        coefficients: s.coefficients + c,
        line_i: s.line_i + x,
        line_q: s.line_q + y,
    }
}

// By a number here too: three slices.
fn output_run(before: Raised, k: &[i32], i: &[u64], q: &[u64]) -> Raised
    requires { Row k.now × (Beside (length k.now) i.now q.now × RaisedUpto 64 before) }
    ensures { Outputs k.now i.now q.now before result }
{
    let mut s = before;
    for n in 0..k.len() {
        s = with_tap(s, k[n], i[n], q[n]);
    }
    s
}

// The row's sums without what the raising has added.
#[tactic(auto, using(std::proofs::lemmas::Int::ints))]
fn unraised(s: Raised) -> Sums
    requires { RaisedUpto 64 s }
    ensures { result ≡ unraised_sums s }
{
    let raised = i64::from(s.coefficients) * 0x8000_0000;
    Sums {
        i: s.i as i64 - (s.line_i * 0x2_0000) as i64 - raised,
        q: s.q as i64 - (s.line_q * 0x2_0000) as i64 - raised,
    }
}

// ---- the runs

// What the runs so far have summed.
#[derive(Clone, Copy, Default)]
struct Summed {
    detected: Detected,
    output: Raised,
}

// One run: `count` coefficients of each row, from number `from` on, over as many places of the line, from `place` on. Outside the detector's places the rows
// of h and g are zero, so of their coefficients only the run's share of those is summed, from number `begin` up to `end`.
fn line_run(
    before: Summed,
    rows: &Rows<'_>,
    line: &Line,
    from: usize,
    place: usize,
    count: usize,
) -> Summed
    requires summed_upto { SummedUpto 64 before }
    requires count_in_bounds { (from + count ≤ length rows.now.k) × (place + count ≤ length rows.now.k) }
    ensures { RunAdds rows.now line.now from place count before result }
{
    let d = params::detector_of(rows.k.len());
    let to = from + count;
    let stop = place + count;
    let begin = d.start.clamp(from, to);
    let end = d.end.clamp(from, to);
    let begin_at = place + (begin - from);
    let end_at = place + (end - from);
    let detected = detector_run(
        before.detected,
        &rows.h[begin..end],
        &rows.g[begin..end],
        &line.i[begin_at..end_at],
        &line.q[begin_at..end_at],
    );
    let output = output_run(
        before.output,
        &rows.k[from..to],
        &line.i[place..stop],
        &line.q[place..stop],
    );
    Summed { detected, output }
}

// The sums of h, g and k, each a row, over the line from its newest number on, which stands at `head`.
pub(crate) fn filter(rows: &Rows<'_>, line: &Line, head: usize) -> [Sums; 3]
    requires { head < length rows.now.k }
    ensures { result ≡ sums_of (length rows.now.k) rows.now.h line.now head
        ∷ sums_of (length rows.now.k) rows.now.g line.now head
        ∷ sums_of (length rows.now.k) rows.now.k line.now head ∷ [] }
{
    let cut = rows.k.len() - head;
    let first = line_run(Summed::default(), rows, line, 0, head, cut);
    let both = line_run(first, rows, line, cut, 0, head);
    let detected = both.detected;
    [detected.h, detected.g, unraised(both.output)]
}
