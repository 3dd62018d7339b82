// A queue of places in a circular buffer; its calls are in queue_calls.rt.
ghost use Rattle.std.specs.Prelude.{◌≡◌, ◌<◌, ◌≤◌, length};

use masks::PLACES;
use messages::Place;

// The first of `len` places stands at `head`, the next ones behind it; behind the last of the buffer comes the first.
// An array with its length: it needs no heap, and is `Copy` as a wiring is.
#[derive(Clone, Copy)]
pub(crate) struct Queue {
    pub(crate) places: [Place; PLACES],
    pub(crate) head: usize,
    pub(crate) len: usize,
    ghost sized: { length places ≡ 512 },
    ghost inside: { head < 512 },
    ghost room: { len ≤ 512 },
}
