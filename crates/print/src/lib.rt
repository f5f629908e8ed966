// Numbers and lines, printed one behind the other into a lent buffer or a page of bytes.
#![tactic(auto)]

ghost use Rattle.std.specs.Prelude.{◌≡◌, ◌+◌, ◌*◌, ◌++◌, [], length};
ghost use Rattle.print.specs.Print.{roomed, line_text, end_of, refused_of};

mod lent;

pub use lent::{put_end, put_refusal, put_row};
use std::marker::Model;

// A page of N bytes, filled from its start on. A fixed array, since the program takes no heap.
#[derive(Drop)]
pub struct Page<const N: usize> {
    bytes: [u8; N],
    used: usize,
}

// Clauses see the bytes that are printed.
impl<const N: usize> Model for Page<N> {
    ghost use Rattle.std.specs.Prelude.{ℕ, ◌≤◌, List, take};

    ghost Value = { List ℕ };

    ghost view = { λ p. take p.used p.bytes };

    ghost invariant = { λ p. p.used ≤ N };
}

impl<const N: usize> Page<N> {
    pub fn new() -> Self
        ensures { result ≡ [] }
    {
        Page {
            bytes: [0; N],
            used: 0,
        }
    }

    // What is printed so far.
    pub fn text(&self) -> &[u8]
        ensures { result.now ≡ self.now }
    {
        &self.bytes[..self.used]
    }

    // How many bytes are left.
    pub fn room(&self) -> usize
        ensures { result + length self.now ≡ N }
    {
        N - self.used
    }

    pub fn clear(&mut self)
        ensures { self.new ≡ [] }
    {
        self.used = 0;
    }

    // Prints numbers as a line, or nothing where 22 bytes a number do not fit.
    #[tactic(auto, using(crate::proofs::Writing::on_page))]
    pub fn put_row(&mut self, values: &[i64])
        ensures { self.new ≡ self.old ++ roomed (22 * length values.now) N (length self.old) (line_text values.now) }
    {
        self.used = put_row(values, &mut self.bytes, self.used);
    }

    // Prints the line at the end of a whole list, or nothing where 70 bytes do not fit.
    #[tactic(auto, using(crate::proofs::Writing::on_page))]
    pub fn put_end(&mut self, samples: u64, symbols: u64, t: i64)
        ensures { self.new ≡ self.old ++ roomed 70 N (length self.old) (end_of samples symbols t) }
    {
        self.used = put_end(samples, symbols, t, &mut self.bytes, self.used);
    }

    // Prints the line that stands in place of it where the input is refused, or nothing where 52 bytes do not fit.
    #[tactic(auto, using(crate::proofs::Writing::on_page))]
    pub fn put_refusal(&mut self, number: u32, line: u64)
        ensures { self.new ≡ self.old ++ roomed 52 N (length self.old) (refused_of number line) }
    {
        self.used = put_refusal(number, line, &mut self.bytes, self.used);
    }
}
