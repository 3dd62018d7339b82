// How operations begin at a server, and how a client gives one up.
ghost use Rattle.std.specs.Prelude.{◌≡◌, ◌<◌, true, false, is_ok, Option, nat_le};
ghost use Rattle.fleet.specs.declared.fleet.Fleet.{Fleet};
ghost use Rattle.journal.specs.View.{view};
ghost use Rattle.messages.specs.Waiting.{Waiting};
ghost use Rattle.model.specs.Operations.{GiveUpStep, ReadStep, WriteStep};
ghost use Rattle.model.specs.Outcomes.{outcome, row_outcome};
ghost use Rattle.requests.specs.Beginning.{refuse_begin};
ghost use Rattle.sending.specs.View.{refused_or, shelf, state};

use fleet::Fleet;
use journal::Journal;
use messages::{ROWS, Row};
use model::Refusal;
use operation::Request;
use sending::refuse_server;

// Clients are numbered from 0 to 15.
const CLIENTS: usize = 16;

// Refuses what write and read refuse alike.
fn refuse_begin(
    journal: &Journal,
    fleet: &Fleet,
    client: usize,
    server: usize,
) -> Result<(), Refusal>
    ensures refuses { (w : Waiting) (later : Option Refusal) → refuse_begin (state journal.now fleet.now w) client server later ≡ refused_or result later }
    ensures client { is_ok result ≡ true → client < 16 }
    ensures server { is_ok result ≡ true → server < 8 }
    ensures room { is_ok result ≡ true → nat_le 256 (view journal.now).used ≡ false }
{
    if client >= CLIENTS {
        return Err(Refusal::NoClient);
    }
    refuse_server(fleet, server)?;
    if journal.open_row(client as u8).is_some() {
        return Err(Refusal::Busy);
    }
    if journal.is_full() {
        return Err(Refusal::Full);
    }
    Ok(())
}

// The client begins a write at the server: it is queued, and its value is stored in the row that it gives.
pub fn write<V: Copy>(
    journal: &mut Journal,
    fleet: &Fleet,
    values: &mut [V],
    client: usize,
    server: usize,
    value: V,
) -> Result<Row, Refusal>
    ensures { (w : Waiting) (d : V) → WriteStep (shelf d journal.old fleet.now w values.old) client server value (row_outcome result) (shelf d journal.new fleet.now w values.new) }
{
    refuse_begin(journal, fleet, client, server)?;
    if values.len() != ROWS {
        return Err(Refusal::WrongRowCount);
    }
    let row = journal
        .begin(client as u8, server as u8, Request::Write)
        .ok_or(Refusal::Full)?;
    values[row.0 as usize] = value;
    Ok(row)
}

// The client begins a read at the server. If nothing is pending there it is answered straight away, with the held row.
pub fn read(
    journal: &mut Journal,
    fleet: &Fleet,
    client: usize,
    server: usize,
) -> Result<Row, Refusal>
    ensures { (w : Waiting) → ReadStep (state journal.old fleet.now w) client server (row_outcome result) (state journal.new fleet.now w) }
{
    refuse_begin(journal, fleet, client, server)?;
    let threshold = fleet.highest_pending(server, journal);
    let row = journal
        .begin(client as u8, server as u8, Request::Read { threshold })
        .ok_or(Refusal::Full)?;
    if !fleet.some_pending(server) {
        journal.answer_read(row, fleet.held(server));
    }
    Ok(row)
}

// The client gives up its open operation, which then ends without an answer.
pub fn give_up(journal: &mut Journal, client: usize) -> Result<(), Refusal>
    ensures { (f : Fleet) (w : Waiting) → GiveUpStep (state journal.old f w) client (outcome result) (state journal.new f w) }
{
    if client >= CLIENTS {
        return Err(Refusal::NoClient);
    }
    let row = journal.open_row(client as u8).ok_or(Refusal::NothingOpen)?;
    journal.give_up(row);
    Ok(())
}
