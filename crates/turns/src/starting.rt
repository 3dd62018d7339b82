// Starting: a write that is queued at a server gets its tag and goes on its way.
// `server < 8` is required, and is no type of its own: that would be unwrapped at each call of the fleet and the journal, which take numbers.
ghost use Rattle.std.specs.Prelude.{◌≡◌, ◌<◌, None};
ghost use Rattle.counting.specs.Below.{least};
ghost use Rattle.journal.specs.View.{view};
ghost use Rattle.model.specs.State.{is_queued};
ghost use Rattle.model.specs.Turns.{forwards_or_starts};
ghost use Rattle.sending.specs.View.{memory_state};

use messages::Phase;
use sending::{Memory, send};
use servers::ServerSet;
use wiring::Wiring;

// The server starts the lowest row that is queued there, if there is one: the write gets a tag above all that the server holds or has pending, is pending there, and its pre-write is sent.
pub(crate) fn start_queued<W: Wiring>(memory: &mut Memory, wiring: &mut W, server: usize)
    requires { server < 8 }
    ensures { memory_state memory.new (W.waits wiring.new) ≡ forwards_or_starts (memory_state memory.old (W.waits wiring.old)) server None (least (is_queued (view memory.old.journal) server) (λ k. k) 256) }
{
    if let Some(row) = memory.journal.first_queued(server as u8) {
        let highest = memory.fleet.highest_row(server, &memory.journal);
        memory.journal.start(row, server as u8, highest);
        memory.fleet.start(server, row);
        send(
            &memory.fleet,
            wiring,
            server,
            row,
            Phase::PreWrite,
            ServerSet::only(server),
        );
    }
}
