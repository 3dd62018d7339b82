// What a server does with a row that has come to it: it takes the row, and returns it to those who wait for it.
// `server < 8` is required, and is no type of its own: that would be unwrapped at each call of the fleet and the journal, which take numbers.
ghost use Rattle.std.specs.Prelude.{◌≡◌, ◌<◌};
ghost use Rattle.messages.specs.Waiting.{Waiting};
ghost use Rattle.model.specs.Deliveries.{took, took_and_returned};
ghost use Rattle.sending.specs.View.{memory_state};

use messages::Row;
use sending::Memory;

// The server takes the row, only if its tag is above the held row's: it holds the row, rows with tags not above it are no longer pending, and the open reads whose thresholds are not above it are answered with it.
pub(crate) fn take_row(memory: &mut Memory, server: usize, row: Row)
    requires { server < 8 }
    ensures { (w : Waiting) → memory_state memory.new w ≡ took (memory_state memory.old w) server row.0 }
{
    if memory.fleet.is_news(server, row, &memory.journal) {
        memory.fleet.hold(server, row, &memory.journal);
        let tag = memory.journal.tag_of(row);
        memory.journal.answer_reads(server as u8, tag, row);
    }
}

// The server takes the row and raises its returned tag to the row's; the open writes started there with tags not above the returned one are answered.
pub(crate) fn return_row(memory: &mut Memory, server: usize, row: Row)
    requires { server < 8 }
    ensures { (w : Waiting) → memory_state memory.new w ≡ took_and_returned (memory_state memory.old w) server row.0 }
{
    take_row(memory, server, row);
    let tag = memory.journal.tag_of(row);
    memory.fleet.raise_returned(server, tag);
    let returned = memory.fleet.returned(server);
    memory.journal.answer_writes(server as u8, returned);
}
