// Where the places of one server's messages are kept until they are taken.
ghost use Rattle.masks.specs.Listed.{Leaves};
ghost use Rattle.messages.specs.declared.Place.{Place};
ghost use Rattle.std.specs.Prelude.{ℕ, ◌≡◌, List, None, Option, [], ◌∷◌, ◌++◌, length, if◌then◌else◌, nat_lt};

use messages::Place;

// A store of up to 512 places, which hands them out in an order of its own; a kind of wiring is a kind of store.
// Its meaning, `listed`, is the list of its places; `chosen` says which one take hands out of a list for a number, and what list is left.
pub trait Store: Copy {
    ghost listed: { Self → List Place };

    ghost chosen: { List Place → ℕ → Option Place → List Place → Type 0 };

    // An empty store.
    fn new() -> Self
        ensures { listed result ≡ [] };

    // How many places are in the store.
    fn len(&self) -> usize
        ensures { result ≡ length (listed self.now) };

    // The place stands last; a full store stays as it is.
    fn push(&mut self, place: Place)
        ensures { listed self.new ≡ (if nat_lt (length (listed self.old)) 512 then listed self.old ++ place ∷ [] else listed self.old) };

    // Takes one place out, none exactly where there is none. Which one is the store's choice, for which it may use the number.
    fn take(&mut self, number: usize) -> Option<Place>
        ensures left { Leaves (listed self.old) result (listed self.new) }
        ensures choice { chosen (listed self.old) number result (listed self.new) };

    // An empty store has none to choose.
    ghost none_of_nothing: { (number : ℕ) → chosen [] number None [] };
}
