// The calls and questions of the ring, each by its rule. The wiring and the value rows are lent to the calls that use them.
ghost use Rattle.fleet.specs.View.{servers};
ghost use Rattle.journal.specs.Questions.{no_journal};
ghost use Rattle.journal.specs.View.{view};
ghost use Rattle.messages.specs.Waiting.{Waiting};
ghost use Rattle.model.specs.Crashes.{CrashStep, NoticeStep};
ghost use Rattle.model.specs.Deliveries.{DeliverStep};
ghost use Rattle.model.specs.Operations.{GiveUpStep, MakeStep, ReadStep, WriteStep};
ghost use Rattle.model.specs.Outcomes.{outcome, row_outcome};
ghost use Rattle.model.specs.Questions.{amounts, answer};
ghost use Rattle.model.specs.ServerChanges.{new_servers};
ghost use Rattle.model.specs.Turns.{TurnStep};
ghost use Rattle.questions.specs.Replies.{reply_of};
ghost use Rattle.ring.specs.View.{ring_shelf, ring_state};
ghost use Rattle.std.specs.Prelude.{◌≡◌};

use crate::ring::Ring;
use fleet::Fleet;
use journal::Journal;
use messages::Row;
use model::Refusal;
use questions::Answer;
use sending::Memory;
use wiring::Wiring;

impl Ring {
    // A ring that was never made: it has no server, and no row is used.
    pub fn empty() -> Ring
        ensures journal { view result.memory.journal ≡ no_journal }
        ensures size { result.memory.fleet.size ≡ 0 }
        ensures servers { servers result.memory.fleet ≡ new_servers 0 }
    {
        Ring {
            memory: Memory {
                journal: Journal::empty(),
                fleet: Fleet::empty(),
            },
        }
    }

    // Makes the ring new, of so many servers, and stores the first value. Refused: not 2 to 8 servers; not 256 value rows.
    pub fn make<V: Copy>(&mut self, values: &mut [V], size: usize, first: V) -> Result<(), Refusal>
        ensures { (w : Waiting) (d : V) → MakeStep (ring_shelf d self.old w values.old) size first (outcome result) (ring_shelf d self.new w values.new) }
    {
        requests::make(&mut self.memory, values, size, first)
    }

    // The client begins a write at the server; gives its row.
    pub fn write<V: Copy>(
        &mut self,
        values: &mut [V],
        client: usize,
        server: usize,
        value: V,
    ) -> Result<Row, Refusal>
        ensures { (w : Waiting) (d : V) → WriteStep (ring_shelf d self.old w values.old) client server value (row_outcome result) (ring_shelf d self.new w values.new) }
    {
        requests::write(
            &mut self.memory.journal,
            &self.memory.fleet,
            values,
            client,
            server,
            value,
        )
    }

    // The client begins a read at the server; gives its row.
    pub fn read(&mut self, client: usize, server: usize) -> Result<Row, Refusal>
        ensures { (w : Waiting) → ReadStep (ring_state self.old w) client server (row_outcome result) (ring_state self.new w) }
    {
        requests::read(&mut self.memory.journal, &self.memory.fleet, client, server)
    }

    // The client gives up its open operation.
    pub fn give_up(&mut self, client: usize) -> Result<(), Refusal>
        ensures { (w : Waiting) → GiveUpStep (ring_state self.old w) client (outcome result) (ring_state self.new w) }
    {
        requests::give_up(&mut self.memory.journal, client)
    }

    // The server forwards one entry, or starts one queued write.
    pub fn turn<W: Wiring>(&mut self, wiring: &mut W, server: usize) -> Result<(), Refusal>
        ensures { TurnStep (ring_state self.old (W.waits wiring.old)) server (outcome result) (ring_state self.new (W.waits wiring.new)) }
    {
        turns::turn(&mut self.memory, wiring, server)
    }

    // The server takes one message, which the wiring chooses.
    pub fn deliver<W: Wiring>(&mut self, wiring: &mut W, server: usize) -> Result<(), Refusal>
        ensures { DeliverStep (ring_state self.old (W.waits wiring.old)) server (outcome result) (ring_state self.new (W.waits wiring.new)) }
    {
        deliveries::deliver(&mut self.memory, wiring, server)
    }

    // The server stops.
    pub fn crash<W: Wiring>(&mut self, wiring: &mut W, server: usize) -> Result<(), Refusal>
        ensures { CrashStep (ring_state self.old (W.waits wiring.old)) server (outcome result) (ring_state self.new (W.waits wiring.new)) }
    {
        crashes::crash(&mut self.memory.fleet, wiring, server)
    }

    // The server notices the crash of the other one.
    pub fn notice<W: Wiring>(
        &mut self,
        wiring: &mut W,
        server: usize,
        other: usize,
    ) -> Result<(), Refusal>
        ensures { NoticeStep (ring_state self.old (W.waits wiring.old)) server other (outcome result) (ring_state self.new (W.waits wiring.new)) }
    {
        crashes::notice(&mut self.memory.fleet, wiring, server, other)
    }

    // How many servers stand, how many entries are under way, and how many writes are queued.
    pub fn amounts<W: Wiring>(&self, wiring: &W) -> (usize, usize, usize)
        ensures { result ≡ amounts (ring_state self.now (W.waits wiring.now)) }
    {
        questions::amounts(&self.memory, wiring)
    }

    // What is told of the operation of the row, once it is answered.
    pub fn answer<V: Copy>(&self, values: &[V], row: usize) -> Result<Answer<V>, Refusal>
        ensures { (w : Waiting) (d : V) → reply_of result ≡ answer (ring_shelf d self.now w values.now) row }
    {
        questions::answer(&self.memory.journal, values, row)
    }
}
