// The number of a field, from a place that was looked at: there is such a place, and its number is one of the field's kind.
ghost use Rattle.std.specs.Prelude.{◌≡◌, true, ℤ, nat_abs};
ghost use Rattle.kinds.specs.declared.Kind.{Kind};
ghost use Rattle.kinds.specs.declared.Kind.TheVariants.{U8, U32, I16, I32, I64, Count};
ghost use Rattle.kinds.specs.Kinds.{at, is_kind, KindAt};

// A type that fields have.
pub(crate) trait Number: Sized {
    ghost kind: { Kind };

    ghost value: { ℤ → Self };

    fn of_place(place: i64) -> Self
        requires { is_kind kind place ≡ true }
        ensures { result ≡ value place };
}

impl Number for u8 {
    ghost kind = { U8 };

    ghost value = { nat_abs };

    fn of_place(place: i64) -> u8 {
        place as u8
    }
}

impl Number for u32 {
    ghost kind = { U32 };

    ghost value = { nat_abs };

    fn of_place(place: i64) -> u32 {
        place as u32
    }
}

impl Number for i16 {
    ghost kind = { I16 };

    ghost value = { λ z. z };

    fn of_place(place: i64) -> i16 {
        place as i16
    }
}

impl Number for i32 {
    ghost kind = { I32 };

    ghost value = { λ z. z };

    fn of_place(place: i64) -> i32 {
        place as i32
    }
}

impl Number for i64 {
    ghost kind = { I64 };

    ghost value = { λ z. z };

    fn of_place(place: i64) -> i64 {
        place
    }
}

impl Number for u64 {
    ghost kind = { Count };

    ghost value = { nat_abs };

    fn of_place(place: i64) -> u64 {
        place as u64
    }
}

impl Number for usize {
    ghost kind = { Count };

    ghost value = { nat_abs };

    fn of_place(place: i64) -> usize {
        place as usize
    }
}

pub(crate) fn number_at<T: Number>(places: &[i64], n: usize) -> T
    requires { KindAt T.kind places.now n }
    ensures { result ≡ T.value (at places.now n) }
{
    T::of_place(places[n])
}
