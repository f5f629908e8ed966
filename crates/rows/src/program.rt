// What the replay programs share: rows are read from the input and handed on, the answers are counted, and a line says how many agreed.
ghost use Rattle.std.specs.Prelude.{◌≡◌, List, ℤ, Option, Bool, Some, IfOk};
ghost use Rattle.std.specs.List.{FoldsTo};
ghost use Rattle.rows.specs.Rows.{read, start, none_counted};
ghost use Rattle.rows.specs.Program.{numbers_of, after, rows_in, counted, Answers, Takes, ReadWhole, report_text};

use crate::{Cursor, Tally};
use std::io::Read;
use std::{fmt, io};

// What a replay makes of the rows.
pub trait Replay {
    // What a row's numbers may answer, and what they may leave of the replay.
    ghost gives: { Self → List ℤ → Option Bool → Self → Type 0 } = { λ _ _ _ _. Unit {0} };

    // Takes a row's numbers. Where they have the answer of a call: whether the call answers the same.
    fn take(&mut self, numbers: &[i64]) -> Option<bool>
        ensures { gives self.old numbers.now result self.new };
}

// How far the input is read, and what was counted.
#[derive(Clone, Copy, Default)]
struct Progress {
    cursor: Cursor,
    tally: Tally,
}

// The answer of a row of so many numbers. One that has more than there are places for is an answer that differs.
fn answer<R: Replay>(row: &[i64], columns: usize, replay: &mut R) -> Option<bool>
    ensures { Answers R.gives replay.old (numbers_of columns row.now) result replay.new }
{
    match row.get(..columns) {
        Some(numbers) => replay.take(numbers),
        None => Some(false),
    }
}

// Takes a row of so many numbers, and counts its answer.
fn take_row<R: Replay>(row: &[i64], columns: usize, replay: &mut R, tally: &mut Tally)
    ensures { Takes R.gives (counted replay.old tally.old) (numbers_of columns row.now) (counted replay.new tally.new) }
{
    if let Some(same) = answer(row, columns, replay) {
        tally.count(same);
    }
}

impl Progress {
    // Takes the rows that end in a piece of the input.
    fn piece<R: Replay>(&mut self, bytes: &[u8], row: &mut [i64], replay: &mut R)
        ensures rows { FoldsTo (Takes R.gives) (counted replay.old self.old.tally)
            (rows_in (read self.old.cursor row.old) bytes.now) (counted replay.new self.new.tally) }
        ensures place { read self.new.cursor row.new ≡ after (read self.old.cursor row.old) bytes.now }
    {
        for b in bytes {
            self.cursor.begin();
            self.cursor.byte(*b, row);
            if self.cursor.ended {
                take_row(row, self.cursor.column, replay, &mut self.tally);
            }
        }
    }
}

// Replays an input to its end.
pub fn run<I: Read, R: Replay>(input: &mut I, row: &mut [i64], replay: &mut R) -> io::Result<Tally>
    ensures { IfOk result (λ tally. ReadWhole (I.remaining input.old) (I.remaining input.new) (λ bytes.
        FoldsTo (Takes R.gives) (counted replay.old none_counted) (rows_in (read start row.old) bytes) (counted replay.new tally))) }
{
    let mut bytes = [0; 65536];
    let mut progress = Progress::default();
    for _ in 0..u64::MAX {
        let n = input.read(&mut bytes)?;
        if n == 0 {
            return Ok(progress.tally);
        }
        progress.piece(&bytes[..n], row, replay);
    }
    Err(io::Error::from(io::ErrorKind::Other))
}

// The line that says how many answers agreed: answers of what, and how the first that differed is named.
#[derive(Drop)]
pub struct Report<'a> {
    pub tally: Tally,
    pub of: &'a str,
    pub first: &'a str,
}

impl fmt::Display for Report<'_> {
    ghost output = { λ r. Some (report_text r) };

    fn fmt<W: fmt::Write>(&self, f: &mut fmt::Formatter<W>) -> fmt::Result {
        let Tally { rows, wrong, first } = self.tally;
        let of = self.of;
        match first {
            None => write!(f, "{rows} answers {of} compared, {wrong} differ"),
            Some(row) => {
                let name = self.first;
                write!(
                    f,
                    "{rows} answers {of} compared, {wrong} differ, the first {name} {row}"
                )
            }
        }
    }
}
