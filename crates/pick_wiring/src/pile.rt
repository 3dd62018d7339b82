// A pile of places, in any order; its calls are in pile_calls.rt.
ghost use Rattle.std.specs.Prelude.{◌≡◌, ◌≤◌, length};

use masks::PLACES;
use messages::Place;

// The first `len` places of the array are the pile.
// An array with its length: it needs no heap, and is `Copy` as a wiring is, which `ArrayVec` is not.
#[derive(Clone, Copy)]
pub(crate) struct Pile {
    pub(crate) places: [Place; PLACES],
    pub(crate) len: usize,
    ghost sized: { length places ≡ 512 },
    ghost room: { len ≤ 512 },
}
