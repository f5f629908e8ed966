// The front end for C and Rust: crates/calls, and float samples of crates/input, under the names and with the arguments that include/huntelm.h declares.
// What an accepted start, block or commit leaves in a state's slices is a state, which the next call reads.
#![tactic(auto)]

ghost use Rattle.std.specs.Prelude.{◌≡◌, true, Result, IsOk};
ghost use Rattle.kinds.specs.Answer.{answer_number};
ghost use Rattle.places.specs.States.{slices, state_fits};
ghost use Rattle.calls.specs.Calls.{judge_number, start_answer, block_answer, read_answer, ask_answer, commit_answer, offset_answer, design_answer};
ghost use Rattle.calls.specs.Refusal.{call_number};
ghost use Rattle.input.specs.Input.{sample_answer};

use calls::CallError;

// C has no enums: a call answers 0, or the number of its refusal, which is never 0.
#[tactic(auto, using(calls::proofs::Numbers::call_numbered))]
fn number(answer: Result<(), CallError>) -> u32
    ensures told { result ≡ answer_number call_number answer }
    ensures accepted { result ≡ 0 → IsOk answer }
{
    match answer {
        Ok(()) => 0,
        Err(error) => error.number(),
    }
}

#[unsafe(no_mangle)]
pub extern "C" fn huntelm_judge(sheet: &[i64], h: &[i32], g: &[i32], k: &[i32]) -> u32
    ensures { result ≡ judge_number sheet.now h.now g.now k.now }
{
    number(calls::judge(sheet, h, g, k))
}

#[unsafe(no_mangle)]
pub extern "C" fn huntelm_start(
    sheet: &[i64],
    h: &[i32],
    g: &[i32],
    k: &[i32],
    state: &mut [i64],
    line: &mut [i32],
    errors: &mut [i32],
) -> u32
    ensures answers { record { number = result; state = slices state.new line.new errors.new }
        ≡ start_answer sheet.now h.now g.now k.now
        (slices state.old line.old errors.old) }
    ensures fits { result ≡ 0 → state_fits (slices state.new line.new errors.new) ≡ true }
{
    number(calls::start(sheet, h, g, k, state, line, errors))
}

#[unsafe(no_mangle)]
pub extern "C" fn huntelm_block(
    sheet: &[i64],
    h: &[i32],
    g: &[i32],
    k: &[i32],
    state: &mut [i64],
    line: &mut [i32],
    errors: &mut [i32],
    values: &[i16],
    out: &mut [i64],
    answer: &mut [i64],
) -> u32
    ensures answers { record {
      number = result;
      state = slices state.new line.new errors.new;
      output = out.new;
      answer = answer.new;
    }
        ≡ block_answer sheet.now h.now g.now k.now
        (slices state.old line.old errors.old) values.now out.old answer.old }
    ensures fits { result ≡ 0 → state_fits (slices state.new line.new errors.new) ≡ true }
{
    number(calls::block(sheet, h, g, k, state, line, errors, values, out, answer))
}

#[unsafe(no_mangle)]
pub extern "C" fn huntelm_read(
    sheet: &[i64],
    h: &[i32],
    g: &[i32],
    k: &[i32],
    state: &[i64],
    line: &[i32],
    errors: &[i32],
    answer: &mut [i64],
) -> u32
    ensures { record { number = result; places = answer.new }
        ≡ read_answer sheet.now h.now g.now k.now
        (slices state.now line.now errors.now) answer.old }
{
    number(calls::read(sheet, h, g, k, state, line, errors, answer))
}

#[unsafe(no_mangle)]
pub extern "C" fn huntelm_ask(
    sheet: &[i64],
    h: &[i32],
    g: &[i32],
    k: &[i32],
    state: &[i64],
    line: &[i32],
    errors: &[i32],
    answer: &mut [i64],
) -> u32
    ensures { record { number = result; places = answer.new }
        ≡ ask_answer sheet.now h.now g.now k.now
        (slices state.now line.now errors.now) answer.old }
{
    number(calls::ask(sheet, h, g, k, state, line, errors, answer))
}

#[unsafe(no_mangle)]
pub extern "C" fn huntelm_commit(
    ticket: u64,
    sheet: &[i64],
    h: &[i32],
    g: &[i32],
    k: &[i32],
    state: &mut [i64],
    line: &[i32],
    errors: &[i32],
) -> u32
    ensures answers { record { number = result; places = state.new }
        ≡ commit_answer ticket sheet.now h.now g.now k.now
        (slices state.old line.now errors.now) }
    ensures fits { result ≡ 0 → state_fits (slices state.new line.now errors.now) ≡ true }
{
    number(calls::commit(ticket, sheet, h, g, k, state, line, errors))
}

#[unsafe(no_mangle)]
pub extern "C" fn huntelm_offset(
    sheet: &[i64],
    h: &[i32],
    g: &[i32],
    k: &[i32],
    period: u32,
    answer: &mut [i64],
) -> u32
    ensures { record { number = result; places = answer.new }
        ≡ offset_answer sheet.now h.now g.now k.now period answer.old }
{
    number(calls::offset(sheet, h, g, k, period, answer))
}

#[unsafe(no_mangle)]
pub extern "C" fn huntelm_sample(floats: &[f32], values: &mut [i16]) -> u32
    ensures { record { number = result; places = values.new } ≡ sample_answer floats.now values.old }
{
    // As `number`, of an error that is no call's: a trait for two types would be longer than this.
    match input::sample(floats, values) {
        Ok(()) => 0,
        Err(error) => error.number(),
    }
}

#[unsafe(no_mangle)]
pub extern "C" fn huntelm_design(
    rates: &[f64],
    fields: &[i64],
    h: &[i32],
    g: &[i32],
    k: &[i32],
    sheet: &mut [i64],
) -> u32
    ensures { record { number = result; places = sheet.new }
        ≡ design_answer rates.now fields.now h.now g.now k.now sheet.old }
{
    number(calls::design(rates, fields, h, g, k, sheet))
}
