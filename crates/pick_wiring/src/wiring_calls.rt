// The pick wiring behind the interface of wirings. Besides what the interface asks, each call says what it does to the pick number, and take which message it picks.
ghost use Rattle.messages.specs.Waiting.{Taken, cleared, nothing, put_in};
ghost use Rattle.pick_wiring.specs.Picks.{Picks};
ghost use Rattle.pick_wiring.specs.Wires.{pick_waits};
ghost use Rattle.std.specs.Prelude.{◌≡◌};
ghost use Rattle.masks.proofs.Lines.{nothing_waits_off_the_places};

use crate::pick_wiring::PickWiring;
use masks::ServerLanes;
use messages::Message;
use servers::ServerSet;
use wiring::Wiring;

impl Wiring for PickWiring {
    ghost waits = { pick_waits };

    ghost only_at_places = { λ w. nothing_waits_off_the_places w.lanes };

    // The pick number is 0.
    fn new() -> PickWiring
        ensures waiting { pick_waits result ≡ nothing }
        ensures number { result.number ≡ 0 }
    {
        PickWiring {
            lanes: ServerLanes::new(),
            number: 0,
        }
    }

    // The pick number stays.
    fn put(&mut self, to: usize, row: usize, phase: u8, mask: ServerSet)
        ensures waiting { pick_waits self.new ≡ put_in (pick_waits self.old) to row phase mask.bits }
        ensures number { self.new.number ≡ self.old.number }
    {
        self.lanes.put(to, row, phase, mask);
    }

    // Message (pick number mod count), counted from 0 by row, then phase.
    fn take(&mut self, server: usize) -> Option<Message>
        ensures waiting { Taken (pick_waits self.old) server result (pick_waits self.new) }
        ensures picked { Picks (pick_waits self.old server) self.old.number result }
        ensures number { self.new.number ≡ self.old.number }
    {
        self.lanes.take(server, self.number)
    }

    // As many as lie in the pile.
    fn count(&self, server: usize) -> usize {
        self.lanes.count(server)
    }

    // The pick number stays.
    fn clear(&mut self, server: usize)
        ensures waiting { pick_waits self.new ≡ cleared (pick_waits self.old) server }
        ensures number { self.new.number ≡ self.old.number }
    {
        self.lanes.clear(server);
    }

    // Sets the pick number.
    fn pick(&mut self, number: usize)
        ensures waiting { pick_waits self.new ≡ pick_waits self.old }
        ensures number { self.new.number ≡ number }
    {
        self.number = number;
    }
}
