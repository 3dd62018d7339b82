// Sending a message round the ring.
ghost use Rattle.journal.specs.declared.journal.Journal.{Journal};
ghost use Rattle.messages.specs.Phases.{phase_number};
ghost use Rattle.model.specs.Sending.{sent};
ghost use Rattle.sending.specs.View.{state};
ghost use Rattle.std.specs.Prelude.{◌≡◌};

use fleet::Fleet;
use messages::{Phase, Row};
use servers::ServerSet;
use wiring::Wiring;

// The server sends a message of the row to its next; it is lost if that has crashed. Its parts and no `Message`: callers have them apart.
pub fn send<W: Wiring>(
    fleet: &Fleet,
    wiring: &mut W,
    server: usize,
    row: Row,
    phase: Phase,
    mask: ServerSet,
)
    ensures { (j : Journal) → state j fleet.now (W.waits wiring.new) ≡ sent (state j fleet.now (W.waits wiring.old)) server row.0 (phase_number phase) mask.bits }
{
    let next = fleet.next_of(server);
    if fleet.is_standing(next) {
        wiring.put(next, row.0 as usize, u8::from(phase), mask);
    }
}
