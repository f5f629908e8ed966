// A state as three slices: 28 places, which are nco, t_acc, v, period, gain_acc, symbols, head, oldest, waiting, samples and the 18 fields of the held sheet;
// the line's 64 pairs i, q; and the 24 pairs e, err of the ring in which errors wait. Line and ring are as they are stored, and take any number of 32 bits.
ghost use Rattle.std.specs.Prelude.{◌≡◌, true, false, take, MatchOption, IfSome, IfOk};
ghost use Rattle.kinds.specs.Answer.{answer_number};
ghost use Rattle.kinds.specs.Kinds.{are_kinds, places_number};
ghost use Rattle.places.specs.Refusal.{places_refusal};
ghost use Rattle.places.specs.States.{slices, are_long, first_kinds, state_fits, AreState, registers_at, state_of, read_state, has_places, first_numbers, state_written};

use crate::numbers::number_at;
use crate::{PlacesError, pairs, sheet};
use kinds::Kind;
use registers::{Pending, Registers};
use state::{Frontend, Pair, RING_PLACES};
use std::marker::Model;

// ---- from slices

// The types of the first ten places. Behind them stand the fields of a sheet.
fn first_kinds() -> [Kind; 10]
    ensures { result ≡ first_kinds }
{
    [
        Kind::U32,
        Kind::I64,
        Kind::I64,
        Kind::U32,
        Kind::U32,
        Kind::Count,
        Kind::Count,
        Kind::Count,
        Kind::Count,
        Kind::Count,
    ]
}

#[tactic(auto, using(crate::proofs::Readable::first_at), unfolding(crate::specs::States::registers_at))]
fn registers_of(places: &[i64]) -> Registers
    requires { places_number first_kinds (take 10 places.now) ≡ 0 }
    ensures { result ≡ registers_at places.now }
{
    Registers {
        nco: number_at(places, 0),
        t_acc: number_at(places, 1),
        v: number_at(places, 2),
        period: number_at(places, 3),
        gain_acc: number_at(places, 4),
        symbols: number_at(places, 5),
    }
}

// The slices of a state, as they are lent to be read.
#[derive(Drop)]
pub struct Slices<'a> {
    pub places: &'a [i64],
    pub line: &'a [i32],
    pub errors: &'a [i32],
}

impl<'a> Model for Slices<'a> {
    ghost use Rattle.places.specs.States.{Slices as Lists, slices};

    ghost Value = { Lists };

    ghost view = { λ s. slices s.places.now s.line.now s.errors.now };
}

impl Slices<'_> {
    fn are_long(&self) -> bool
        ensures { result ≡ are_long self.now }
    {
        self.places.len() == 28 && self.line.len() == 128 && self.errors.len() == 48
    }

    // Whether they are a state. Whether a call can go on from it is looked at by the call (RULES 4.1, 4.4).
    #[tactic(auto, using(crate::proofs::Readable::in_two_parts), unfolding(crate::specs::States::state_fits))]
    pub fn is_state(&self) -> bool
        ensures { result ≡ state_fits self.now }
    {
        if !self.are_long() {
            return false;
        }
        let (first, held) = self.places.split_at(10);
        kinds::are_kinds(&first_kinds(), first) && kinds::are_kinds(&sheet::sheet_kinds(), held)
    }

    #[tactic(auto, using(crate::proofs::Readable::first_at), unfolding(crate::specs::States::state_of))]
    fn state(&self) -> Frontend
        requires { AreState self.now }
        ensures { result ≡ state_of self.now }
    {
        let places = self.places;
        let mut line = [Pair::default(); 64];
        pairs::read(self.line, &mut line);
        let mut pending = [Pending::default(); RING_PLACES];
        pairs::read(self.errors, &mut pending);
        Frontend {
            params: sheet::params_of(&places[10..]),
            registers: registers_of(places),
            line,
            head: number_at(places, 6),
            pending,
            oldest: number_at(places, 7),
            waiting: number_at(places, 8),
            samples: number_at(places, 9),
        }
    }

    // The state that they are. Where they are none it is zeros throughout, which 9 refuses: no sheet has a period of 0. (A retune
    // would meet the held delay of 0 before that, so it asks `is_state` first.)
    #[tactic(auto, unfolding(crate::specs::States::read_state))]
    pub fn read(&self) -> Frontend
        ensures { result ≡ read_state self.now }
    {
        if !self.is_state() {
            return Frontend::fresh(fields::none());
        }
        self.state()
    }
}

// ---- to slices

// The first ten places of a state, if each of its counts is small enough for one. Then each has a number of its field's type.
#[tactic(auto, using(crate::proofs::Typed::typed), unfolding(crate::specs::States::are_counts, kinds::specs::Kinds::are_kinds))]
fn first_places(f: &Frontend) -> Option<[i64; 10]>
    ensures made { MatchOption result (has_places f.now ≡ false) (λ a. (has_places f.now ≡ true) × (a ≡ first_numbers f.now)) }
    ensures fits { IfSome result (λ a. are_kinds first_kinds (first_numbers f.now) ≡ true) }
{
    let r = f.registers;
    Some([
        i64::from(r.nco),
        r.t_acc,
        r.v,
        i64::from(r.period),
        i64::from(r.gain_acc),
        i64::try_from(r.symbols).ok()?,
        i64::try_from(f.head).ok()?,
        i64::try_from(f.oldest).ok()?,
        i64::try_from(f.waiting).ok()?,
        i64::try_from(f.samples).ok()?,
    ])
}

// Writes all of a state. The slices are as long as one, and each count has a place. They come one by one, as C lends them.
// What it leaves in them is a state.
#[tactic(auto, unfolding(crate::specs::States::state_written, crate::specs::States::numbers_of))]
pub fn write_state(
    f: &Frontend,
    places: &mut [i64],
    line: &mut [i32],
    errors: &mut [i32],
) -> Result<(), PlacesError>
    ensures written { record { number = answer_number places_refusal result; state = slices places.new line.new errors.new }
        ≡ state_written f.now (slices places.old line.old errors.old) }
    ensures fits { IfOk result (λ done. state_fits (slices places.new line.new errors.new) ≡ true) }
{
    let lent = Slices {
        places: &*places,
        line: &*line,
        errors: &*errors,
    };
    if !lent.are_long() {
        return Err(PlacesError::State);
    }
    let first = first_places(f).ok_or(PlacesError::State)?;
    places[..10].copy_from_slice(&first);
    sheet::write(f.params, &mut places[10..]);
    pairs::write(&f.line, line);
    pairs::write(&f.pending, errors);
    Ok(())
}
