// Sheets, states and designs as places: numbers of 64 bits, in which they cross to C and in which the programs read them.
//
// Nothing is asked of a caller: places that are those of no sheet, state or design are refused by an error, and then nothing is written.
// A sheet is 18 places (sheet.rt), a state 28 with its line and its errors beside them (states.rt), a design five rates and eight places (rates.rt).
#![tactic(auto)]

mod claims;
mod numbers;
mod pairs;
mod rates;
mod sheet;
mod states;

ghost use Rattle.std.specs.Prelude.{◌≡◌};
ghost use Rattle.places.specs.Refusal.{places_refusal};

pub use claims::{sheets_cross, states_cross};
pub use rates::read_design;
pub use sheet::{read_sheet, sheet_kinds, write_sheet};
pub use states::{Slices, write_state};

// Why places are refused, or not written.
#[derive(Clone, Copy, PartialEq, Eq, Debug)]
pub enum PlacesError {
    // They are no state's, or a state has a count that no place takes.
    State,
    // There are too few of them for what is written.
    Short,
}

impl PlacesError {
    // One form for all errors: those that hold something have no discriminant to cast.
    pub fn number(self) -> u32
        ensures { result ≡ places_refusal self }
    {
        match self {
            PlacesError::State => 9,
            PlacesError::Short => 11,
        }
    }
}
