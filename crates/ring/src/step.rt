// One call of a shelf, whichever it is.
ghost use Rattle.model.specs.Steps.{Step};
ghost use Rattle.ring.specs.View.{ring_shelf};

use crate::ring::Ring;
use model::{Call, Outcome};
use wiring::Wiring;

impl Ring {
    // Makes the call and tells its outcome. A pick changes nothing but which message the wiring hands out.
    pub fn call<W: Wiring, V: Copy>(
        &mut self,
        wiring: &mut W,
        values: &mut [V],
        call: Call<V>,
    ) -> Outcome
        ensures { (d : V) → Step (ring_shelf d self.old (W.waits wiring.old) values.old) call result (ring_shelf d self.new (W.waits wiring.new) values.new) }
    {
        match call {
            Call::Write(client, server, value) => self.write(values, client, server, value).into(),
            Call::Read(client, server) => self.read(client, server).into(),
            Call::GiveUp(client) => self.give_up(client).into(),
            Call::Turn(server) => self.turn(wiring, server).into(),
            Call::Deliver(server) => self.deliver(wiring, server).into(),
            Call::Crash(server) => self.crash(wiring, server).into(),
            Call::Notice(server, other) => self.notice(wiring, server, other).into(),
            Call::Pick(number) => {
                wiring.pick(number);
                Outcome::Done
            }
        }
    }
}
