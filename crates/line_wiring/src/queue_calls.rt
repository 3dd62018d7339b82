// The queue's calls, as a store of places: a new one, its length, one more place at the end, the first place out.
ghost use Rattle.line_wiring.specs.Queued.{Popped, queued};
ghost use Rattle.std.specs.Prelude.{refl};

use crate::queue::Queue;
use masks::{NO_PLACE, PLACES, Store};
use messages::Place;

impl Store for Queue {
    ghost listed = { queued };

    ghost chosen = { λ before number place after. Popped before place after };

    ghost none_of_nothing = { λ number. (refl, refl) };

    // An empty queue.
    fn new() -> Queue {
        Queue {
            places: [NO_PLACE; PLACES],
            head: 0,
            len: 0,
        }
    }

    // How many places are in the queue.
    fn len(&self) -> usize {
        self.len
    }

    // The place stands last; a full queue stays as it is.
    fn push(&mut self, place: Place) {
        if self.len < PLACES {
            self.places[(self.head + self.len) % PLACES] = place;
            self.len += 1;
        }
    }

    // Takes the first place out, whatever the number.
    fn take(&mut self, _number: usize) -> Option<Place> {
        if self.len == 0 {
            return None;
        }
        let first = self.places[self.head];
        self.head = (self.head + 1) % PLACES;
        self.len -= 1;
        Some(first)
    }
}
