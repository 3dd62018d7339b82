// The interface behind which several wirings stand. What waits on a wiring, and what each call does to it, is defined in messages/specs/Waiting.
#![tactic(auto)]

ghost use Rattle.std.specs.Prelude.{ℕ, false, ◌≡◌};
ghost use Rattle.messages.specs.Waiting.{Taken, Waiting, cleared, is_place, nothing, put_in, waiting_count};

use messages::Message;
use servers::ServerSet;

// Where messages wait for servers 0 to 7, at most one for each server, row and phase.
// Its meaning, `waits`, is the mask of the message at each server, row and phase number, 0 where none waits; nothing but these calls alters it.
pub trait Wiring: Sized {
    ghost waits: { Self → Waiting };

    // A new wiring holds nothing.
    fn new() -> Self
        ensures { waits result ≡ nothing };

    // A message waits for a server; if one of its row and phase waits there already, their masks are joined.
    // It never refuses: numbers that are no place, or an empty mask, put nothing.
    // Row and phase are plain numbers, since a `Row` and a `Phase` would ask more of the caller.
    fn put(&mut self, to: usize, row: usize, phase: u8, mask: ServerSet)
        ensures { waits self.new ≡ put_in (waits self.old) to row phase mask.bits };

    // Hands out and removes one message that waits for a server, none exactly where none waits. Which one is the wiring's choice.
    fn take(&mut self, server: usize) -> Option<Message>
        ensures { Taken (waits self.old) server result (waits self.new) };

    // How many messages wait for a server, none for one above 7.
    fn count(&self, server: usize) -> usize
        ensures { result ≡ waiting_count (waits self.now) server };

    // Removes all that waits for a server.
    fn clear(&mut self, server: usize)
        ensures { waits self.new ≡ cleared (waits self.old) server };

    // May change which message is taken next, and leaves what waits.
    fn pick(&mut self, number: usize)
        ensures { waits self.new ≡ waits self.old };

    // Nothing waits where no message can: at a server above 7, a row above 255, or a phase other than 1 and 2.
    ghost only_at_places: { (w : Self) (server row phase : ℕ) → is_place server row phase ≡ false → waits w server row phase ≡ 0 };
}
