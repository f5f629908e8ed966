// What the calls of the interface to C answer: judging, starting, the block, reading, a retune, the offset and designs, over numbers and lent slices.
//
// No call asks anything of its caller: whatever is lent, it answers, with an error where something is wrong, and then it has touched no place.
// 18 and 19 refuse a sheet or a design that cannot be read, before 14 to 17 and the judge's 1 to 8 and 29; slices that are no state are refused by 9, after
// the judge's. A sheet is lent as its places and three banks, and a state as three slices: its places, its line and its errors (crates/places). C lends them
// one by one, so each call takes them so, and makes one value of them in its first lines: a helper would take as many arguments as it saves fields.
#![tactic(auto)]

mod claims;
mod refusal;

ghost use Rattle.std.specs.Prelude.{◌≡◌, ◌++◌, true, cond, leb, length, drop, IfOk};
ghost use Rattle.kinds.specs.Answer.{answered, answer_number};
ghost use Rattle.places.specs.Refusal.{places_refusal};
ghost use Rattle.places.specs.States.{slices, state_fits, state_of};
ghost use Rattle.calls.specs.Refusal.{call_number};
ghost use Rattle.calls.specs.Calls.{judge_number, start_answer, state_number, block_answer, read_answer, ask_answer, commit_answer, offset_answer, design_answer};
ghost use Rattle.calls.specs.Source.{source, nobody, state_source, judge_source, start_source, block_source, read_source};
ghost use Rattle.calls.specs.Source.{ask_source, commit_source, offset_source, design_source};

pub use claims::designs_cross;
use params::Sheet;
use places::{PlacesError, Slices};
pub use refusal::CallError;
use state::Frontend;

// Writes numbers to the first places of an answer, where it has so many.
fn put(numbers: &[i64], answer: &mut [i64]) -> Result<(), PlacesError>
    ensures { record { number = answer_number places_refusal result; places = answer.new }
        ≡ answered (cond (leb (length numbers.now) (length answer.old)) 0 11) (numbers.now ++ drop (length numbers.now) answer.old) answer.old }
{
    if answer.len() < numbers.len() {
        return Err(PlacesError::Short);
    }
    answer[..numbers.len()].copy_from_slice(numbers);
    Ok(())
}

// Judging (RULES 1.4).
#[tactic(auto, using(crate::proofs::Numbers::numbered), unfolding(crate::specs::Calls::judge_number, crate::specs::Source::judge_source))]
pub fn judge(sheet: &[i64], h: &[i32], g: &[i32], k: &[i32]) -> Result<(), CallError>
    ensures answers { answer_number call_number result ≡ judge_number sheet.now h.now g.now k.now }
    ensures error { source result ≡ judge_source sheet.now h.now g.now k.now }
{
    let params = places::read_sheet(sheet)?;
    let sheet = Sheet { params, h, g, k };
    sheet.validate()?;
    Ok(())
}

// Writes the fresh state of a sheet (RULES 3.1). What it leaves in the slices is a state (8.3), which the next call reads.
#[tactic(auto, using(crate::proofs::Answers::started), unfolding(crate::specs::Calls::start_answer, crate::specs::Source::start_source))]
pub fn start(
    sheet: &[i64],
    h: &[i32],
    g: &[i32],
    k: &[i32],
    state: &mut [i64],
    line: &mut [i32],
    errors: &mut [i32],
) -> Result<(), CallError>
    ensures answers { record { number = answer_number call_number result; state = slices state.new line.new errors.new }
        ≡ start_answer sheet.now h.now g.now k.now
        (slices state.old line.old errors.old) }
    ensures error { source result ≡ start_source sheet.now h.now g.now k.now (slices state.old line.old errors.old) }
    ensures fits { IfOk result (λ done. state_fits (slices state.new line.new errors.new) ≡ true) }
{
    let params = places::read_sheet(sheet)?;
    let fresh = Frontend::new(&Sheet { params, h, g, k })?;
    places::write_state(&fresh, state, line, errors)?;
    Ok(())
}

// Takes a block of samples, I before Q, from the state on, as many of them as the output has places for; writes 20 places a symbol, the state after it, and
// how many symbols it wrote, pairs it took and clips it counted to the first three of four places (RULES 4). What it leaves in the state's slices is a state
// (8.3), which the next call reads.
#[tactic(auto, using(crate::proofs::Answers::blocks), unfolding(crate::specs::Calls::block_answer, crate::specs::Source::block_source))]
pub fn block(
    sheet: &[i64],
    h: &[i32],
    g: &[i32],
    k: &[i32],
    state: &mut [i64],
    line: &mut [i32],
    errors: &mut [i32],
    values: &[i16],
    out: &mut [i64],
    answer: &mut [i64],
) -> Result<(), CallError>
    ensures answers { record {
      number = answer_number call_number result;
      state = slices state.new line.new errors.new;
      output = out.new;
      answer = answer.new;
    }
        ≡ block_answer sheet.now h.now g.now k.now
        (slices state.old line.old errors.old) values.now out.old answer.old }
    ensures error { source result ≡ block_source sheet.now h.now g.now k.now
        (slices state.old line.old errors.old) values.now out.old answer.old }
    ensures fits { IfOk result (λ done. state_fits (slices state.new line.new errors.new) ≡ true) }
{
    let params = places::read_sheet(sheet)?;
    let sheet = Sheet { params, h, g, k };
    let lent = Slices {
        places: &*state,
        line: &*line,
        errors: &*errors,
    };
    let mut f = lent.read();
    // Without places for the answer the block is not run: what it would refuse comes first, and then nothing may be written.
    if answer.len() < 4 {
        f.check_block(&sheet, values.len(), out.len())?;
        return Err(CallError::Places(PlacesError::Short));
    }
    let done = fixed::process(&mut f, &sheet, values, out)?;
    // Both write: the slices are as long as a state, 12 refuses the block after which a count has no place, and the answer has four places.
    places::write_state(&f, state, line, errors)?;
    put(
        &[done.count as i64, done.taken as i64, done.clips as i64],
        answer,
    )?;
    Ok(())
}

// Writes period, gain and symbols of a state to three places (RULES 4.3).
#[tactic(auto, using(crate::proofs::Answers::reads), unfolding(crate::specs::Calls::read_answer, crate::specs::Source::read_source))]
pub fn read(
    sheet: &[i64],
    h: &[i32],
    g: &[i32],
    k: &[i32],
    state: &[i64],
    line: &[i32],
    errors: &[i32],
    answer: &mut [i64],
) -> Result<(), CallError>
    ensures answers { record { number = answer_number call_number result; places = answer.new }
        ≡ read_answer sheet.now h.now g.now k.now
        (slices state.now line.now errors.now) answer.old }
    ensures error { source result ≡ read_source sheet.now h.now g.now k.now (slices state.now line.now errors.now) answer.old }
{
    let params = places::read_sheet(sheet)?;
    let lent = Slices {
        places: state,
        line,
        errors,
    };
    let reading = lent.read().read(&Sheet { params, h, g, k })?;
    put(
        &[
            i64::from(reading.period),
            i64::from(reading.gain),
            reading.symbols as i64,
        ],
        answer,
    )?;
    Ok(())
}

// The state of some slices. Where they are none, what judging refuses of the sheet comes first, and then 9.
#[tactic(auto, using(crate::proofs::Numbers::numbered), unfolding(crate::specs::Calls::state_number, places::specs::States::read_state))]
fn lent_state(sheet: &Sheet<'_>, lent: &Slices<'_>) -> Result<Frontend, CallError>
    ensures refused { answer_number call_number result ≡ state_number sheet.now lent.now }
    ensures error { source result ≡ state_source sheet.now lent.now nobody }
    ensures read { IfOk result (λ f. f ≡ state_of lent.now) }
{
    if !lent.is_state() {
        sheet.validate()?;
        return Err(CallError::Places(PlacesError::State));
    }
    Ok(lent.read())
}

// Asks whether the sheet may be put into a state, and writes the ticket to one place (RULES 4.4).
#[tactic(auto, using(crate::proofs::Answers::asked), unfolding(crate::specs::Calls::ask_answer, crate::specs::Source::ask_source))]
pub fn ask(
    sheet: &[i64],
    h: &[i32],
    g: &[i32],
    k: &[i32],
    state: &[i64],
    line: &[i32],
    errors: &[i32],
    answer: &mut [i64],
) -> Result<(), CallError>
    ensures answers { record { number = answer_number call_number result; places = answer.new }
        ≡ ask_answer sheet.now h.now g.now k.now
        (slices state.now line.now errors.now) answer.old }
    ensures error { source result ≡ ask_source sheet.now h.now g.now k.now (slices state.now line.now errors.now) answer.old }
{
    let params = places::read_sheet(sheet)?;
    let sheet = Sheet { params, h, g, k };
    let lent = Slices {
        places: state,
        line,
        errors,
    };
    let f = lent_state(&sheet, &lent)?;
    let ticket = retune::ask(&f, &sheet)?;
    put(&[ticket as i64], answer)?;
    Ok(())
}

// Puts the sheet into a state: writes it to the held sheet's places, and leaves all others (RULES 4.5). The slices are a state (8.3) afterwards too.
#[tactic(auto, using(crate::proofs::Numbers::numbered), unfolding(crate::specs::Calls::commit_answer, crate::specs::Source::commit_source))]
pub fn commit(
    ticket: u64,
    sheet: &[i64],
    h: &[i32],
    g: &[i32],
    k: &[i32],
    state: &mut [i64],
    line: &[i32],
    errors: &[i32],
) -> Result<(), CallError>
    ensures answers { record { number = answer_number call_number result; places = state.new }
        ≡ commit_answer ticket sheet.now h.now g.now k.now
        (slices state.old line.now errors.now) }
    ensures error { source result ≡ commit_source ticket sheet.now h.now g.now k.now (slices state.old line.now errors.now) }
    ensures fits { IfOk result (λ done. state_fits (slices state.new line.now errors.now) ≡ true) }
{
    let params = places::read_sheet(sheet)?;
    let sheet = Sheet { params, h, g, k };
    let lent = Slices {
        places: &*state,
        line,
        errors,
    };
    let mut f = lent_state(&sheet, &lent)?;
    retune::commit(&mut f, ticket, &sheet)?;
    // It writes: 18 places stand behind the first ten.
    places::write_sheet(f.params, &mut state[10..])?;
    Ok(())
}

// Writes the offset of a period to one place (RULES 6.1).
#[tactic(auto, using(crate::proofs::Numbers::numbered), unfolding(crate::specs::Calls::offset_answer, crate::specs::Source::offset_source))]
pub fn offset(
    sheet: &[i64],
    h: &[i32],
    g: &[i32],
    k: &[i32],
    period: u32,
    answer: &mut [i64],
) -> Result<(), CallError>
    ensures answers { record { number = answer_number call_number result; places = answer.new }
        ≡ offset_answer sheet.now h.now g.now k.now period answer.old }
    ensures error { source result ≡ offset_source sheet.now h.now g.now k.now period answer.old }
{
    let params = places::read_sheet(sheet)?;
    let parts = offset::of_period(&Sheet { params, h, g, k }, period)?;
    put(&[parts], answer)?;
    Ok(())
}

// Writes the sheet of a design to the first 18 places (RULES 6.4). The design comes as five rates and eight fields.
#[tactic(auto, using(crate::proofs::Answers::designed), unfolding(crate::specs::Calls::design_answer, crate::specs::Source::design_source))]
pub fn design(
    rates: &[f64],
    fields: &[i64],
    h: &[i32],
    g: &[i32],
    k: &[i32],
    sheet: &mut [i64],
) -> Result<(), CallError>
    ensures answers { record { number = answer_number call_number result; places = sheet.new }
        ≡ design_answer rates.now fields.now h.now g.now k.now sheet.old }
    ensures error { source result ≡ design_source rates.now fields.now h.now g.now k.now sheet.old }
{
    let (design, gains) = places::read_design(rates, fields)?;
    let params = design.params(gains, h, g, k)?;
    places::write_sheet(params, sheet)?;
    Ok(())
}
