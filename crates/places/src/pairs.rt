// The two lists of a state whose members are two numbers of 32 bits each, from and to such numbers: the line's samples, and the errors that wait.
ghost use Rattle.std.specs.Prelude.{◌≡◌, ◌*◌, ℤ, length};
ghost use Rattle.places.specs.States.{in_pairs, flat_pairs};

use registers::Pending;
use state::Pair;

pub(crate) trait TwoNumbers: Copy {
    ghost made: { ℤ → ℤ → Self };

    ghost one: { Self → ℤ };

    ghost other: { Self → ℤ };

    fn make(a: i32, b: i32) -> Self
        ensures { result ≡ made a b };

    fn first(self) -> i32
        ensures { result ≡ one self };

    fn second(self) -> i32
        ensures { result ≡ other self };
}

impl TwoNumbers for Pair {
    ghost made = { λ a b. record { i = a; q = b } };

    ghost one = { λ x. x.i };

    ghost other = { λ x. x.q };

    fn make(a: i32, b: i32) -> Pair {
        Pair { i: a, q: b }
    }

    fn first(self) -> i32 {
        self.i
    }

    fn second(self) -> i32 {
        self.q
    }
}

impl TwoNumbers for Pending {
    ghost made = { λ a b. record { e = a; err = b } };

    ghost one = { λ x. x.e };

    ghost other = { λ x. x.err };

    fn make(a: i32, b: i32) -> Pending {
        Pending { e: a, err: b }
    }

    fn first(self) -> i32 {
        self.e
    }

    fn second(self) -> i32 {
        self.err
    }
}

// Fills a list from its numbers. By index: behind an adapter of `iter_mut`, as `enumerate` or `zip`, no clause says what is written through an item.
pub(crate) fn read<T: TwoNumbers>(numbers: &[i32], list: &mut [T])
    requires { length numbers.now ≡ 2 * length list.old }
    ensures { list.new ≡ in_pairs T.made numbers.now }
{
    for n in 0..list.len() {
        list[n] = T::make(numbers[2 * n], numbers[2 * n + 1]);
    }
}

// Writes the numbers of a list.
pub(crate) fn write<T: TwoNumbers>(list: &[T], numbers: &mut [i32])
    requires { length numbers.old ≡ 2 * length list.now }
    ensures { numbers.new ≡ flat_pairs T.one T.other list.now }
{
    for (n, x) in list.iter().enumerate() {
        numbers[2 * n] = x.first();
        numbers[2 * n + 1] = x.second();
    }
}
