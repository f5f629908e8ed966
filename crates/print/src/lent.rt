// Numbers and lines, printed into a lent buffer from a place on, for a caller that has one of its own. Each function answers the place behind what it wrote.

ghost use Rattle.std.specs.Prelude.{◌≡◌, ◌≤◌, ◌+◌, ◌*◌, length};
ghost use Rattle.print.specs.Number.{decimal, text_of};
ghost use Rattle.print.specs.Print.{Put, roomed, line_text, end_of, refused_of};

// The most bytes of a number and what follows it: a sign, 20 digits and a comma.
const NUMBER: usize = 22;

// The most bytes of the line at the end of a whole list, and of the line in its place.
const END: usize = 70;

const REFUSAL: usize = 52;

#[tactic(auto, using(crate::proofs::Writing::put_part))]
fn put_bytes(s: &[u8], out: &mut [u8], at: usize) -> usize
    requires { at + length s.now ≤ length out.old }
    ensures { Put s.now out.old at result out.new }
{
    let end = at + s.len();
    out[at..end].copy_from_slice(s);
    end
}

// By itoa, on the stack: `write!` gives a Result, and no clause of std says that it is never an error.
#[tactic(auto, using(crate::proofs::Digits::is_decimal))]
fn put_digits(n: u64, out: &mut [u8], at: usize) -> usize
    requires { at + 20 ≤ length out.old }
    ensures put { Put (decimal n) out.old at result out.new }
    ensures most { result ≤ at + 20 }
{
    let mut digits = itoa::Buffer::new();
    put_bytes(digits.format(n).as_bytes(), out, at)
}

// As put_digits, of a signed number: `format` takes either type, and the two contracts name two definitions.
#[tactic(auto, using(crate::proofs::Digits::is_text))]
fn put_number(z: i64, out: &mut [u8], at: usize) -> usize
    requires { at + 21 ≤ length out.old }
    ensures put { Put (text_of z) out.old at result out.new }
    ensures most { result ≤ at + 21 }
{
    let mut digits = itoa::Buffer::new();
    put_bytes(digits.format(z).as_bytes(), out, at)
}

// Prints numbers as a line, or nothing where 22 bytes a number do not fit.
#[tactic(auto, using(crate::proofs::Writing::without_room))]
pub fn put_row(values: &[i64], out: &mut [u8], at: usize) -> usize
    ensures put { Put (roomed (22 * length values.now) (length out.old) at (line_text values.now)) out.old at result out.new }
    ensures inside { at ≤ length out.old → result ≤ length out.old }
{
    if out.len().saturating_sub(at) / NUMBER < values.len() {
        return at;
    }
    let Some((last, others)) = values.split_last() else {
        return at;
    };
    let mut end = at;
    for value in others {
        end = put_number(*value, out, end);
        out[end] = b',';
        end += 1;
    }
    end = put_number(*last, out, end);
    out[end] = b'\n';
    end + 1
}

// Prints the line at the end of a whole list, or nothing where 70 bytes do not fit.
#[tactic(auto, using(crate::proofs::Writing::without_room))]
pub fn put_end(samples: u64, symbols: u64, t: i64, out: &mut [u8], at: usize) -> usize
    ensures put { Put (roomed 70 (length out.old) at (end_of samples symbols t)) out.old at result out.new }
    ensures inside { at ≤ length out.old → result ≤ length out.old }
{
    if out.len().saturating_sub(at) < END {
        return at;
    }
    let mut end = put_bytes(b"end,", out, at);
    end = put_digits(samples, out, end);
    end = put_bytes(b",", out, end);
    end = put_digits(symbols, out, end);
    end = put_bytes(b",", out, end);
    end = put_number(t, out, end);
    put_bytes(b"\n", out, end)
}

// Prints the line that stands in place of it where the input is refused, or nothing where 52 bytes do not fit.
#[tactic(auto, using(crate::proofs::Writing::without_room))]
pub fn put_refusal(number: u32, line: u64, out: &mut [u8], at: usize) -> usize
    ensures put { Put (roomed 52 (length out.old) at (refused_of number line)) out.old at result out.new }
    ensures inside { at ≤ length out.old → result ≤ length out.old }
{
    if out.len().saturating_sub(at) < REFUSAL {
        return at;
    }
    let mut end = put_bytes(b"refused,", out, at);
    end = put_digits(u64::from(number), out, end);
    end = put_bytes(b",", out, end);
    end = put_digits(line, out, end);
    put_bytes(b"\n", out, end)
}
