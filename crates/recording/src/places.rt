// Where the numbers of a line go. Each is within its type before it comes here (text::read_line), so that narrowing it loses nothing.
ghost use Rattle.std.specs.Prelude.{◌≡◌, map, ◌+◌, ◌*◌, ◌≤◌, min, length};
ghost use Rattle.std.proofs.lemmas.List.Edits.{sets};
ghost use Rattle.arith.specs.Arith.{narrow_i32};
ghost use Rattle.recording.specs.Places.{pair_at};

// The numbers of a row: as many as the taps say, and no more than the longest row has. Taps that are judged are no more; without the limit both lengths would
// ask that of each caller, down to the first that judges.
pub fn row_length(taps: u32) -> usize
    ensures { result ≡ min taps 64 }
{
    (taps as usize).min(64)
}

// The numbers of a bank, whatever the taps are: never more than there is room for.
pub fn bank_length(taps: u32) -> usize
    ensures is { result ≡ 64 * min taps 64 }
    ensures fits { result ≤ 4096 }
{
    64 * row_length(taps)
}

// Puts a row of coefficients into a bank from a place on, and says where the next begins. What the bank has no place for is left out. With a slice of its own
// for a row, each caller would reckon where the next begins, and hold that to the bank's end.
pub fn keep_row(row: &[i64], bank: &mut [i32], from: usize) -> usize
    ensures next { result ≡ min (from + length row.now) (length bank.old) }
    ensures bank { bank.new ≡ sets bank.old from (map narrow_i32 row.now) }
{
    let start = from.min(bank.len());
    let n = row.len().min(bank.len() - start);
    for (i, value) in row[..n].iter().enumerate() {
        bank[start + i] = arith::narrow_i32(*value);
    }
    start + n
}

// Puts pair n into its two places of the sample values, if there are two. With these two alone as a slice it would still have to look whether there are two.
#[tactic(auto, unfolding(crate::specs::Places::pair_at))]
pub fn keep_pair(i: i64, q: i64, values: &mut [i16], n: usize)
    ensures { values.new ≡ pair_at values.old n i q }
{
    if n < values.len() / 2 {
        values[2 * n] = arith::narrow_i16(i);
        values[2 * n + 1] = arith::narrow_i16(q);
    }
}
