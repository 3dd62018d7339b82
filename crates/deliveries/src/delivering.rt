// The call deliver: its refusals in order, and what is heard of the message that the wiring hands out.
ghost use Rattle.model.specs.Deliveries.{DeliverStep};
ghost use Rattle.model.specs.Outcomes.{outcome};
ghost use Rattle.sending.specs.View.{memory_state};

use crate::hearing::{hear_prewrite, hear_write};
use messages::Phase;
use model::Refusal;
use sending::{Memory, refuse_server};
use wiring::Wiring;

// The server takes one message, which the wiring chooses.
// Refused: no such server; crashed; none waits; the message is stray, and then it is gone and all else stays.
pub fn deliver<W: Wiring>(memory: &mut Memory, wiring: &mut W, server: usize) -> Result<(), Refusal>
    ensures { DeliverStep (memory_state memory.old (W.waits wiring.old)) server (outcome result) (memory_state memory.new (W.waits wiring.new)) }
{
    refuse_server(&memory.fleet, server)?;
    let message = wiring.take(server).ok_or(Refusal::NoMessage)?;
    if memory.journal.is_stray(message.row) {
        return Err(Refusal::Stray);
    }
    match message.phase {
        Phase::PreWrite => hear_prewrite(memory, wiring, server, message.row, message.mask),
        Phase::Write => hear_write(memory, server, message.row, message.mask),
    }
    Ok(())
}
