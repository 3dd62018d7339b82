// What a message does at the server that it comes to.
// `server < 8` is required, and is no type of its own: that would be unwrapped at each call of the fleet, which takes numbers.
ghost use Rattle.std.specs.Prelude.{◌≡◌, ◌<◌};
ghost use Rattle.messages.specs.Waiting.{Waiting};
ghost use Rattle.model.specs.Deliveries.{hears_prewrite, hears_write};
ghost use Rattle.sending.specs.View.{memory_state};

use crate::taking::{return_row, take_row};
use messages::{Phase, Row};
use sending::{Memory, send};
use servers::ServerSet;
use wiring::Wiring;

// A pre-write has come: it ends, and the server takes the row and sends a write of its own, or the server keeps it to forward.
pub(crate) fn hear_prewrite<W: Wiring>(
    memory: &mut Memory,
    wiring: &mut W,
    server: usize,
    row: Row,
    mask: ServerSet,
)
    requires { server < 8 }
    ensures { memory_state memory.new (W.waits wiring.new) ≡ hears_prewrite (memory_state memory.old (W.waits wiring.old)) server row.0 mask.bits }
{
    if memory.fleet.ends_at(server, row, mask, &memory.journal) {
        take_row(memory, server, row);
        send(
            &memory.fleet,
            wiring,
            server,
            row,
            Phase::Write,
            ServerSet::only(server),
        );
    } else {
        memory.fleet.keep(server, row, Phase::PreWrite, mask);
    }
}

// A write has come: the server takes the row and returns it; then the write ends, or the server keeps it to forward.
pub(crate) fn hear_write(memory: &mut Memory, server: usize, row: Row, mask: ServerSet)
    requires { server < 8 }
    ensures { (w : Waiting) → memory_state memory.new w ≡ hears_write (memory_state memory.old w) server row.0 mask.bits }
{
    let ends = memory.fleet.ends_at(server, row, mask, &memory.journal);
    return_row(memory, server, row);
    if !ends {
        memory.fleet.keep(server, row, Phase::Write, mask);
    }
}
