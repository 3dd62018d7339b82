// The pile's calls, as a store of places: a new one, its length, one more place, the place of a rank out.
ghost use Rattle.pick_wiring.specs.Piled.{Brought, Picked, Removed, SortedFront, piled};
ghost use Rattle.std.specs.Prelude.{refl};

use crate::pile::Pile;
use masks::{NO_PLACE, PLACES, Store};
use messages::Place;
use search::least;

impl Store for Pile {
    ghost listed = { piled };

    ghost chosen = { Picked };

    ghost none_of_nothing = { λ number. (refl, refl) };

    // An empty pile.
    fn new() -> Pile {
        Pile {
            places: [NO_PLACE; PLACES],
            len: 0,
        }
    }

    // How many places are in the pile.
    fn len(&self) -> usize {
        self.len
    }

    // One more place; a full pile stays as it is.
    fn push(&mut self, place: Place) {
        if self.len < PLACES {
            self.places[self.len] = place;
            self.len += 1;
        }
    }

    // Takes out the place before which number mod len others come, by row, then phase.
    fn take(&mut self, number: usize) -> Option<Place> {
        if self.len == 0 {
            return None;
        }
        let rank = number % self.len;
        self.sort_front(rank + 1);
        self.remove(rank)
    }
}

impl Pile {
    // The `count` least places come to the front, in order. By the one search, which is to serve places as it serves tags and counts, and not by std's sort; each turn changes the pile.
    fn sort_front(&mut self, count: usize)
        ensures { SortedFront (piled self.old) count (piled self.new) }
    {
        for i in 0..count {
            self.bring_least(i);
        }
    }

    // The least of the places from `at` on changes places with the one at `at`.
    fn bring_least(&mut self, at: usize)
        ensures { Brought (piled self.old) at (piled self.new) }
    {
        if at >= self.len {
            return;
        }
        if let Some(offset) = least(&self.places[at..self.len]) {
            self.places.swap(at, at + offset);
        }
    }

    // Takes out the place at `at`, and the last one comes there.
    fn remove(&mut self, at: usize) -> Option<Place>
        ensures { Removed (piled self.old) at result (piled self.new) }
    {
        if at >= self.len {
            return None;
        }
        let place = self.places[at];
        self.len -= 1;
        self.places[at] = self.places[self.len];
        Some(place)
    }
}
