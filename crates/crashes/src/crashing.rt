// How a server stops.
ghost use Rattle.journal.specs.declared.journal.Journal.{Journal};
ghost use Rattle.model.specs.Crashes.{CrashStep};
ghost use Rattle.model.specs.Outcomes.{outcome};
ghost use Rattle.sending.specs.View.{state};

use fleet::Fleet;
use model::Refusal;
use sending::refuse_server;
use wiring::Wiring;

// The server stops: its masks are empty, and nothing waits for it any more. Refused: no such server; crashed; it is the last that stands.
pub fn crash<W: Wiring>(fleet: &mut Fleet, wiring: &mut W, server: usize) -> Result<(), Refusal>
    ensures { (j : Journal) → CrashStep (state j fleet.old (W.waits wiring.old)) server (outcome result) (state j fleet.new (W.waits wiring.new)) }
{
    refuse_server(fleet, server)?;
    if fleet.standing_count() == 1 {
        return Err(Refusal::LastStanding);
    }
    fleet.crash(server);
    wiring.clear(server);
    Ok(())
}
