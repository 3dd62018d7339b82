// Turn.
ghost use Rattle.model.specs.Turns.{TurnStep};
ghost use Rattle.model.specs.Outcomes.{outcome};
ghost use Rattle.sending.specs.View.{memory_state};

use crate::forwarding::forward;
use crate::starting::start_queued;
use choices::{chosen_group, first_entry};
use model::Refusal;
use sending::{Memory, refuse_server};
use wiring::Wiring;

// The server counts the turn of the group that it chooses, and forwards the group's first entry, or starts a queued write if there is none. Refused: no such server; crashed; no group waits.
pub fn turn<W: Wiring>(memory: &mut Memory, wiring: &mut W, server: usize) -> Result<(), Refusal>
    ensures { TurnStep (memory_state memory.old (W.waits wiring.old)) server (outcome result) (memory_state memory.new (W.waits wiring.new)) }
{
    refuse_server(&memory.fleet, server)?;
    let group = chosen_group(&memory.fleet, &memory.journal, server).ok_or(Refusal::NothingToSend)?;
    let entry = first_entry(&memory.fleet, &memory.journal, server, group);
    let some_entry = memory.fleet.some_entry(server);
    memory.fleet.count_turn(server, group, some_entry);
    match entry {
        Some(row) => forward(memory, wiring, server, row),
        None => start_queued(memory, wiring, server),
    }
    Ok(())
}
