// The refusals that most calls begin with.
ghost use Rattle.journal.specs.declared.journal.Journal.{Journal};
ghost use Rattle.messages.specs.Waiting.{Waiting};
ghost use Rattle.model.specs.Refusals.{refuse_server};
ghost use Rattle.sending.specs.View.{refused_or, state};
ghost use Rattle.std.specs.Prelude.{◌≡◌, Option};

use fleet::Fleet;
use model::Refusal;

// Refuses a number that is no server's, and a server that has crashed.
pub fn refuse_server(fleet: &Fleet, server: usize) -> Result<(), Refusal>
    ensures { (j : Journal) (w : Waiting) (later : Option Refusal) → refuse_server (state j fleet.now w) server later ≡ refused_or result later }
{
    if server >= fleet.size() {
        return Err(Refusal::NoServer);
    }
    if !fleet.is_standing(server) {
        return Err(Refusal::Crashed);
    }
    Ok(())
}
