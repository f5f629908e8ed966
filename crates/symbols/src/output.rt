// Standard output, through one page.
use crate::stop::Stop;
use print::Page;
use std::io::{ErrorKind, Stderr, Stdout};

// The places of a symbol, and the most bytes that any line takes.
const PLACES: usize = 20;

const LINE: usize = 440;

// Where the bytes go and where a failure is told, and what waits to be written.
#[derive(Drop)]
pub(crate) struct Output {
    stdout: Stdout,
    stderr: Stderr,
    page: Page<65536>,
}

impl Output {
    pub(crate) fn new(stdout: Stdout, stderr: Stderr) -> Output {
        Output {
            stdout,
            stderr,
            page: Page::new(),
        }
    }

    // Writes what waits. Where that fails it is lost. A reader that has gone ends the program quietly, by a signal or here.
    pub(crate) fn flush(&mut self) -> Result<(), Stop> {
        let written = self.stdout.write_all(self.page.text());
        self.page.clear();
        if let Err(e) = written {
            if e.kind() != ErrorKind::BrokenPipe {
                // A message that cannot be written either is lost.
                let _ = eprintln!(self.stderr; "symbols: writing standard output: {e}");
            }
            return Err(Stop::Failed);
        }
        Ok(())
    }

    // Makes room for one more line.
    fn make_room(&mut self) -> Result<(), Stop> {
        if self.page.room() < LINE {
            self.flush()?;
        }
        Ok(())
    }

    // Prints so many symbols, by their places.
    pub(crate) fn put_symbols(&mut self, places: &[i64], count: usize) -> Result<(), Stop> {
        for symbol in places.chunks_exact(PLACES).take(count) {
            self.make_room()?;
            self.page.put_row(symbol);
        }
        Ok(())
    }

    // Prints the end line. This and the next are two calls each: a function for both would be told which of the lines it prints, and have to look at that.
    pub(crate) fn put_end(&mut self, samples: u64, symbols: u64, t: i64) -> Result<(), Stop> {
        self.make_room()?;
        self.page.put_end(samples, symbols, t);
        Ok(())
    }

    // Prints the line that stands in its place.
    pub(crate) fn put_refusal(&mut self, number: u32, line: u64) -> Result<(), Stop> {
        self.make_room()?;
        self.page.put_refusal(number, line);
        Ok(())
    }
}
