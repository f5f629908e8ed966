// The types of numbers that fields have, one enum for the whole repository: what each of them takes, and whether places hold numbers of theirs.
//
// A place is a signed number of 64 bits, in which sheets, states and answers cross to C and in which the fields of a line are read.
#![tactic(auto)]

ghost use Rattle.std.specs.Prelude.{◌≡◌};
ghost use Rattle.kinds.specs.Kinds.{least_of, most_of, is_kind, are_kinds, places_number, field_number};
ghost use Rattle.kinds.specs.Answer.{answer_number};

#[derive(Clone, Copy, PartialEq, Eq, Debug)]
pub enum Kind {
    U8,
    U32,
    I16,
    I32,
    I64,
    // Unsigned of 64 bits; a place takes the lower half of these.
    Count,
}

impl Kind {
    // The least and the greatest number of a kind. Both by one match: the compiler then unrolls the loop over a sheet's fields, which it does not where it
    // has to look into two tables.
    fn ends(self) -> (i64, i64)
        ensures { (result.0 ≡ least_of self) × (result.1 ≡ most_of self) }
    {
        match self {
            Kind::U8 => (0, i64::from(u8::MAX)),
            Kind::U32 => (0, i64::from(u32::MAX)),
            Kind::I16 => (i64::from(i16::MIN), i64::from(i16::MAX)),
            Kind::I32 => (i64::from(i32::MIN), i64::from(i32::MAX)),
            Kind::I64 => (i64::MIN, i64::MAX),
            Kind::Count => (0, i64::MAX),
        }
    }

    pub fn least(self) -> i64
        ensures { result ≡ least_of self }
    {
        self.ends().0
    }

    pub fn most(self) -> i64
        ensures { result ≡ most_of self }
    {
        self.ends().1
    }

    // Both ends are tested, whatever the first test says: with no branch between them the loop below is short enough for the compiler to unroll.
    fn takes(self, v: i64) -> bool
        ensures { result ≡ is_kind self v }
    {
        let (least, most) = self.ends();
        (least <= v) & (v <= most)
    }
}

// Why fields cannot be read.
#[derive(Clone, Copy, PartialEq, Eq, Debug)]
pub enum FieldError {
    // There is another number of them, or one that is not written as a number.
    Malformed,
    // One is outside its type.
    OutOfRange,
}

impl FieldError {
    // One form for all errors: those that hold something have no discriminant to cast.
    pub fn number(self) -> u32
        ensures { result ≡ field_number self }
    {
        match self {
            FieldError::Malformed => 18,
            FieldError::OutOfRange => 19,
        }
    }
}

// Whether there is a place for each kind, with a number of it. A number of another kind does not end the loop: the compiler unrolls it for a sheet's 18
// places, and would take the code behind 18 ways out for code that hardly ever runs.
#[tactic(auto, using(crate::proofs::OfKind::too_few))]
pub fn are_kinds(kinds: &[Kind], places: &[i64]) -> bool
    ensures { result ≡ are_kinds kinds.now places.now }
{
    let Some(places) = places.get(..kinds.len()) else {
        return false;
    };
    let mut good = true;
    for (kind, place) in kinds.iter().zip(places) {
        good &= kind.takes(*place);
    }
    good
}

// Whether places can be read: as many as kinds, and each with a number of its kind.
pub fn check(kinds: &[Kind], places: &[i64]) -> Result<(), FieldError>
    ensures { answer_number field_number result ≡ places_number kinds.now places.now }
{
    if places.len() != kinds.len() {
        return Err(FieldError::Malformed);
    }
    if !are_kinds(kinds, places) {
        return Err(FieldError::OutOfRange);
    }
    Ok(())
}
