// How a ring is made of memory that is lent to it.
ghost use Rattle.messages.specs.Waiting.{Waiting};
ghost use Rattle.model.specs.Operations.{MakeStep};
ghost use Rattle.model.specs.Outcomes.{outcome};
ghost use Rattle.sending.specs.View.{memory_shelf};

use messages::ROWS;
use model::Refusal;
use sending::Memory;
use servers::SERVERS;

// A ring has at least two servers.
const FEWEST_SERVERS: usize = 2;

// Makes a ring of so many servers, and stores the first value; the wiring is left as it is.
pub fn make<V: Copy>(
    memory: &mut Memory,
    values: &mut [V],
    size: usize,
    first: V,
) -> Result<(), Refusal>
    ensures { (w : Waiting) (d : V) → MakeStep (memory_shelf d memory.old w values.old) size first (outcome result) (memory_shelf d memory.new w values.new) }
{
    if size < FEWEST_SERVERS || size > SERVERS {
        return Err(Refusal::BadSize);
    }
    if values.len() != ROWS {
        return Err(Refusal::WrongRowCount);
    }
    memory.journal.reset();
    memory.fleet.reset(size);
    values[0] = first;
    Ok(())
}
