// How a server notices the crash of another, and tells its new next what that may have missed.
ghost use Rattle.std.specs.Prelude.{◌≡◌, ◌<◌, if◌then◌else◌, nat_eq};
ghost use Rattle.fleet.specs.View.{servers};
ghost use Rattle.journal.specs.declared.journal.Journal.{Journal};
ghost use Rattle.crashes.specs.Pending.{pending_put};
ghost use Rattle.model.specs.Crashes.{NoticeStep, sends_held, sends_pending};
ghost use Rattle.model.specs.Outcomes.{outcome};
ghost use Rattle.sending.specs.View.{state};
ghost use Rattle.servers.specs.Sets.{alone};

use fleet::Fleet;
use messages::{Phase, ROWS, Row};
use model::Refusal;
use sending::send;
use servers::ServerSet;
use wiring::Wiring;

// The server notices the crash of the other one. If that was its next, its new next is told what the server holds and what is pending there.
// Refused: either is no server; the server has crashed; the other one stands; its crash was noticed already.
pub fn notice<W: Wiring>(
    fleet: &mut Fleet,
    wiring: &mut W,
    server: usize,
    other: usize,
) -> Result<(), Refusal>
    ensures { (j : Journal) → NoticeStep (state j fleet.old (W.waits wiring.old)) server other (outcome result) (state j fleet.new (W.waits wiring.new)) }
{
    if server >= fleet.size() || other >= fleet.size() {
        return Err(Refusal::NoServer);
    }
    if !fleet.is_standing(server) {
        return Err(Refusal::Crashed);
    }
    if fleet.is_standing(other) {
        return Err(Refusal::Stands);
    }
    if fleet.has_noticed(server, other) {
        return Err(Refusal::NoticedAlready);
    }
    let was_next = fleet.next_of(server) == other;
    fleet.notice(server, other);
    if was_next {
        send_held(fleet, wiring, server);
        send_pending(fleet, wiring, server);
    }
    Ok(())
}

// The server sends a write of its held row, unless that is row 0.
// `server < 8` is required, and is no type of its own: that would be unwrapped at each call of the fleet, which takes numbers.
fn send_held<W: Wiring>(fleet: &Fleet, wiring: &mut W, server: usize)
    requires { server < 8 }
    ensures { (j : Journal) → state j fleet.now (W.waits wiring.new) ≡ sends_held (state j fleet.now (W.waits wiring.old)) server }
{
    let held = fleet.held(server);
    send(
        fleet,
        wiring,
        server,
        held,
        Phase::Write,
        held_mask(held, server),
    );
}

// The mask under which the server sends a write of the row: the server alone, and empty for row 0, which is never sent.
fn held_mask(row: Row, server: usize) -> ServerSet
    ensures { result.bits ≡ (if nat_eq row.0 0 then 0 else alone server) }
{
    if row.0 == 0 {
        ServerSet::empty()
    } else {
        ServerSet::only(server)
    }
}

// The server sends a pre-write of each row that is pending there, lowest first, with its pending mask.
fn send_pending<W: Wiring>(fleet: &Fleet, wiring: &mut W, server: usize)
    ensures { (j : Journal) → state j fleet.now (W.waits wiring.new) ≡ sends_pending (state j fleet.now (W.waits wiring.old)) server }
{
    let next = fleet.next_of(server);
    if fleet.is_standing(next) {
        put_pending(fleet, wiring, server, next);
    }
}

// A pre-write of each row that is pending at the server is put to wait for another one.
// A loop and no chain, since each row changes the wiring; `to` is a number for the same reason as above.
fn put_pending<W: Wiring>(fleet: &Fleet, wiring: &mut W, server: usize, to: usize)
    requires { to < 8 }
    ensures { W.waits wiring.new ≡ pending_put ((servers fleet.now).pending server) to 256 (W.waits wiring.old) }
{
    for row in 0..ROWS {
        let mask = fleet.pending(server, Row(row as u8));
        wiring.put(to, row, u8::from(Phase::PreWrite), mask);
    }
}
