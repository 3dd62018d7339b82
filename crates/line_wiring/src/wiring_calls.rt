// The line wiring behind the interface of wirings. Besides what the interface asks, each call says what it does to the lines.
ghost use Rattle.line_wiring.specs.Lines.{FirstOut, line_waits, lines};
ghost use Rattle.masks.specs.Lines.{arrived_at, emptied_at};
ghost use Rattle.messages.specs.Waiting.{Taken, cleared, nothing, put_in};
ghost use Rattle.std.specs.Prelude.{◌≡◌, []};
ghost use Rattle.masks.proofs.Lines.{nothing_waits_off_the_places};

use crate::line_wiring::LineWiring;
use masks::ServerLanes;
use messages::Message;
use servers::ServerSet;
use wiring::Wiring;

impl Wiring for LineWiring {
    ghost waits = { line_waits };

    ghost only_at_places = { λ w. nothing_waits_off_the_places w.lanes };

    // Every line is empty.
    fn new() -> LineWiring
        ensures waiting { line_waits result ≡ nothing }
        ensures order { lines result ≡ (λ server. []) }
    {
        LineWiring {
            lanes: ServerLanes::new(),
        }
    }

    // A message of the row and phase that waits keeps its place; else the new one comes last.
    fn put(&mut self, to: usize, row: usize, phase: u8, mask: ServerSet)
        ensures waiting { line_waits self.new ≡ put_in (line_waits self.old) to row phase mask.bits }
        ensures order { lines self.new ≡ arrived_at (lines self.old) (line_waits self.old) to row phase mask.bits }
    {
        self.lanes.put(to, row, phase, mask);
    }

    // The message that came first.
    fn take(&mut self, server: usize) -> Option<Message>
        ensures waiting { Taken (line_waits self.old) server result (line_waits self.new) }
        ensures order { FirstOut (lines self.old) server result (lines self.new) }
    {
        // Any number would do: a queue hands out its first place.
        self.lanes.take(server, 0)
    }

    // As long as the line.
    fn count(&self, server: usize) -> usize {
        self.lanes.count(server)
    }

    // Empties the line.
    fn clear(&mut self, server: usize)
        ensures waiting { line_waits self.new ≡ cleared (line_waits self.old) server }
        ensures order { lines self.new ≡ emptied_at (lines self.old) server }
    {
        self.lanes.clear(server);
    }

    // The order of arrival leaves nothing to pick.
    fn pick(&mut self, _number: usize)
        ensures waiting { line_waits self.new ≡ line_waits self.old }
        ensures order { lines self.new ≡ lines self.old }
    {}
}
