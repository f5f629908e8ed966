// A symbol's 20 places, and how they go into an output behind those of other symbols.
ghost use Rattle.std.specs.Prelude.{◌≡◌, ◌≤◌};
ghost use Rattle.symbol.specs.Places.{places_of, put_of};

use crate::Symbol;

impl Symbol {
    // The symbol's places, of which the first is its sample: a place holds one of at most 2^63 - 1.
    fn places(self) -> [i64; 20]
        requires { self.sample ≤ 9223372036854775807 }
        ensures { result ≡ places_of self }
    {
        [
            self.sample as i64,
            i64::from(self.phase),
            i64::from(self.y.i),
            i64::from(self.y.q),
            i64::from(self.dy.i),
            i64::from(self.dy.q),
            i64::from(self.yk.i),
            i64::from(self.yk.q),
            i64::from(self.gain),
            i64::from(self.period),
            i64::from(self.z.i),
            i64::from(self.z.q),
            i64::from(self.dz.i),
            i64::from(self.dz.q),
            i64::from(self.zk.i),
            i64::from(self.zk.q),
            i64::from(self.q.i),
            i64::from(self.q.q),
            i64::from(self.e),
            i64::from(self.err),
        ]
    }

    // Writes the symbol behind `count` others and says how many there then are; an output without room for it, or a sample that no place holds, stays as it is.
    // The output is lent whole, and the number of symbols in it is the caller's answer: a slice for each symbol would need both besides.
    #[tactic(auto, unfolding(crate::specs::Places::has_room, crate::specs::Places::put_of))]
    pub fn put(self, count: usize, out: &mut [i64]) -> usize
        ensures { record { count = result; output = out.new } ≡ put_of self count out.old }
    {
        if out.len() / 20 <= count {
            return count;
        }
        if 0x7fff_ffff_ffff_ffff < self.sample {
            return count;
        }
        let at = 20 * count;
        let places = self.places();
        // One by one: the compiler unrolls this, and the places never stand in memory. By `copy_from_slice` a block takes a third longer.
        for j in 0..20 {
            out[at + j] = places[j];
        }
        count + 1
    }
}
