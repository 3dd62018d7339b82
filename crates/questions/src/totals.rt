// The question how much is under way.
ghost use Rattle.std.specs.Prelude.{◌≡◌, ◌+◌, ◌≤◌};
ghost use Rattle.counting.specs.Below.{count};
ghost use Rattle.fleet.specs.View.{servers};
ghost use Rattle.journal.specs.View.{view};
ghost use Rattle.messages.specs.Waiting.{Waiting, waiting_count};
ghost use Rattle.model.specs.Questions.{amounts, entries_under_way, forward_count, queued_writes};
ghost use Rattle.model.specs.State.{is_queued};
ghost use Rattle.sending.specs.View.{memory_state};

use fleet::Fleet;
use journal::Journal;
use sending::Memory;
use wiring::Wiring;

// How many servers stand: at most all of them.
fn standing_servers(fleet: &Fleet) -> usize
    ensures is { result ≡ count (servers fleet.now).standing fleet.now.size }
    ensures few { result ≤ 8 }
{
    fleet.standing_count()
}

// How many messages wait for the server, and how many entries it has to forward: at most two for each row of both.
fn entries_at<W: Wiring>(fleet: &Fleet, wiring: &W, server: usize) -> usize
    ensures is { result ≡ waiting_count (W.waits wiring.now) server + forward_count (servers fleet.now) server }
    ensures few { result ≤ 1024 }
{
    wiring.count(server) + fleet.forward_count(server)
}

// How many entries are under way: messages that wait for standing servers, and what those have to forward.
fn entries_under_way<W: Wiring>(memory: &Memory, wiring: &W) -> usize
    ensures is { result ≡ entries_under_way (memory_state memory.now (W.waits wiring.now)) }
    ensures few { result ≤ 8192 }
{
    (0..memory.fleet.size())
        .filter(|server| memory.fleet.is_standing(*server))
        .map(|server| entries_at(&memory.fleet, wiring, server))
        .sum()
}

// How many writes are queued at the server, given up or not: at most one for each row.
fn queued_at(journal: &Journal, server: u8) -> usize
    ensures is { result ≡ count (is_queued (view journal.now) server) 256 }
    ensures few { result ≤ 256 }
{
    journal.queued_count(server) as usize
}

// How many writes are queued at standing servers. The same chain as for entries: one function of both would require the bound of what it adds up.
fn queued_writes(memory: &Memory) -> usize
    ensures is { (w : Waiting) → result ≡ queued_writes (memory_state memory.now w) }
    ensures few { result ≤ 2048 }
{
    (0..memory.fleet.size())
        .filter(|server| memory.fleet.is_standing(*server))
        .map(|server| queued_at(&memory.journal, server as u8))
        .sum()
}

// How many servers stand, how many entries are under way, and how many writes are queued. The numbers are small enough to multiply.
pub fn amounts<W: Wiring>(memory: &Memory, wiring: &W) -> (usize, usize, usize)
    ensures is { result ≡ amounts (memory_state memory.now (W.waits wiring.now)) }
    ensures few { (result.0 ≤ 8) × (result.1 ≤ 8192) × (result.2 ≤ 2048) }
{
    (
        standing_servers(&memory.fleet),
        entries_under_way(memory, wiring),
        queued_writes(memory),
    )
}
