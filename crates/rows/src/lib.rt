// Rows of decimal numbers separated by commas, as the replay programs read the oracle's answers; the numbers of a row; and how many answers agreed.
#![tactic(auto)]

ghost use Rattle.std.specs.Prelude.{◌≡◌, drop, pos, slice_index_or, slice_set};
ghost use Rattle.rows.specs.Rows.{digit_added, signed_value, with_byte, begun, read, one_counted};

mod program;

pub use program::{Replay, Report, run};

// A number while its digits come in.
#[derive(Clone, Copy, Default)]
struct Number {
    size: u64,
    // Whether a sign has come. Digits may stand before it, so it is no case of the size.
    minus: bool,
}

// Where the reading of a row stands. The bytes come in pieces, and a row may go on in the next piece.
#[derive(Clone, Copy, Default)]
struct Cursor {
    // How many numbers of the row are read.
    column: usize,
    number: Number,
    // Whether the row has ended, and the next byte begins another. No value goes with it: the column still says how many numbers the row had.
    ended: bool,
}

impl Number {
    // Takes one more byte. A byte that is neither a digit nor a sign changes nothing, and so does a digit past the
    // nineteenth, the last that an i64 can have.
    #[tactic(auto, unfolding(crate::specs::Rows::digit_added))]
    fn push(&mut self, b: u8)
        ensures { self.new ≡ digit_added self.old b }
    {
        match b {
            b'-' => self.minus = true,
            b'0'..=b'9' if self.size <= 922337203685477580 => {
                self.size = self.size * 10 + u64::from(b - b'0');
            }
            _ => {}
        }
    }

    // As an i64, held to its range.
    #[tactic(auto, unfolding(crate::specs::Rows::signed_value))]
    fn value(self) -> i64
        ensures { result ≡ signed_value self }
    {
        if self.minus {
            0i64.saturating_sub_unsigned(self.size)
        } else {
            0i64.saturating_add_unsigned(self.size)
        }
    }

    // Stores the value where the row has a place for it. By an index, which needs no proof by hand; what is written through `get_mut` does.
    fn put(self, row: &mut [i64], column: usize)
        ensures { row.new ≡ slice_set row.old column (signed_value self) }
    {
        if column < row.len() {
            row[column] = self.value();
        }
    }
}

impl Cursor {
    // Begins a new row where the one before has ended.
    fn begin(&mut self)
        ensures { self.new ≡ begun self.old }
    {
        if self.ended {
            self.column = 0;
        }
        self.ended = false;
    }

    // Takes the next byte of a row.
    #[tactic(auto, unfolding(crate::specs::Rows::with_byte, crate::specs::Rows::ends_number))]
    fn byte(&mut self, b: u8, row: &mut [i64])
        ensures { read self.new row.new ≡ with_byte (read self.old row.old) b }
    {
        self.ended = b == b'\n';
        if b == b',' || self.ended {
            self.number.put(row, self.column);
            self.column = self.column.wrapping_add(1);
            self.number = Number::default();
        } else {
            self.number.push(b);
        }
    }
}

// The number at a place; 0 where the row has none. At more than twenty places that read a row, the library's three calls would hide which number is read.
pub fn at(row: &[i64], place: usize) -> i64
    ensures { result ≡ slice_index_or row.now place (pos 0) }
{
    row.get(place).copied().unwrap_or(0)
}

// What stands from a place on: nothing behind the end. `row.get(from..).unwrap_or(&[])` says the same at more length, at a dozen places.
pub fn rest<T>(row: &[T], from: usize) -> &[T]
    ensures { result.now ≡ drop from row.now }
{
    &row[from.min(row.len())..]
}

// How many answers were compared, how many differed, and the row of the first that did.
#[derive(Clone, Copy, Default)]
pub struct Tally {
    rows: u64,
    wrong: u64,
    first: Option<u64>,
}

impl Tally {
    // Counts one answer more.
    #[tactic(auto, unfolding(crate::specs::Rows::one_counted))]
    fn count(&mut self, same: bool)
        ensures { self.new ≡ one_counted self.old same }
    {
        self.rows = self.rows.wrapping_add(1);
        if same {
            return;
        }
        if self.wrong == 0 {
            self.first = Some(self.rows);
        }
        self.wrong = self.wrong.wrapping_add(1);
    }
}
