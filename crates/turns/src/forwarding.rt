// Forwarding: a message that came to a server goes on to its next.
// `server < 8` is required, and is no type of its own: that would be unwrapped at each call of the fleet, which takes numbers.
ghost use Rattle.std.specs.Prelude.{◌≡◌, ◌<◌};
ghost use Rattle.model.specs.Turns.{forwards};
ghost use Rattle.sending.specs.View.{memory_state};

use messages::{Phase, Row};
use sending::{Memory, send};
use wiring::Wiring;

// The server forwards its entry of the row with itself added to the mask, the write before the pre-write; a pre-write that is news joins pending.
pub(crate) fn forward<W: Wiring>(memory: &mut Memory, wiring: &mut W, server: usize, row: Row)
    requires { server < 8 }
    ensures { memory_state memory.new (W.waits wiring.new) ≡ forwards (memory_state memory.old (W.waits wiring.old)) server row.0 }
{
    if memory.fleet.has_write(server, row) {
        let mask = memory.fleet.release_write(server, row);
        send(&memory.fleet, wiring, server, row, Phase::Write, mask);
    } else {
        let is_news = memory.fleet.is_news(server, row, &memory.journal);
        let mask = memory.fleet.release_prewrite(server, row, is_news);
        send(&memory.fleet, wiring, server, row, Phase::PreWrite, mask);
    }
}
