// The waiting errors, a ring (RULES 3.6).
ghost use Rattle.std.specs.Prelude.{◌≡◌, ◌+◌, ◌%◌, ◌<◌, ◌≤◌, Some, None, if◌then◌else◌, slice_index_or, slice_set};
ghost use Rattle.registers.specs.Step.{is_due};
ghost use Rattle.state.specs.Start.{ring_places, no_pending};

use registers::Pending;
use state::RING_PLACES;

// Where the oldest errors stand in the ring, and how many wait.
#[derive(Clone, Copy)]
pub(crate) struct Queue {
    pub(crate) oldest: usize,
    pub(crate) waiting: usize,
}

impl Queue {
    // The errors that are due: the oldest, where as many wait as the loop's delay.
    pub(crate) fn due(&self, places: &[Pending; RING_PLACES], delay: u8) -> Option<Pending>
        requires { self.now.oldest < ring_places }
        ensures { result ≡ (if is_due delay self.now.waiting then Some (slice_index_or places.now self.now.oldest no_pending) else None) }
    {
        registers::is_due(delay, self.waiting).then_some(places[self.oldest])
    }

    // A symbol's errors join behind the newest, and the oldest leave where they were due. Only where as many wait as the ring has places do the new ones take
    // the oldest's.
    pub(crate) fn join(&mut self, places: &mut [Pending; RING_PLACES], delay: u8, w: Pending)
        requires { (self.old.oldest < ring_places) × (self.old.waiting ≤ ring_places) }
        ensures ring { places.new ≡ slice_set places.old ((self.old.oldest + self.old.waiting) % ring_places) w }
        ensures positions { self.new ≡ record {
          oldest = (if is_due delay self.old.waiting then (self.old.oldest + 1) % ring_places else self.old.oldest);
          waiting = (if is_due delay self.old.waiting then self.old.waiting else self.old.waiting + 1);
        } }
    {
        places[(self.oldest + self.waiting) % RING_PLACES] = w;
        if registers::is_due(delay, self.waiting) {
            self.oldest = (self.oldest + 1) % RING_PLACES;
        } else {
            self.waiting += 1;
        }
    }
}
