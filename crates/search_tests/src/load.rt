// Loads, the keys of servers.
ghost use Rattle.search_tests.specs.Keys.{load_below};
ghost use Rattle.std.specs.Prelude.{◌≡◌};

// How much waits for a server, compared by the count first.
// It is like a tag on purpose: several kinds of key are what this crate tries.
#[derive(Clone, Copy, PartialEq, Eq, PartialOrd, Ord)]
pub struct Load {
    pub count: u16,
    pub server: usize,
}

impl Load {
    // By count, then server. Its clause pins the derived order.
    pub fn is_below(self, other: Load) -> bool
        ensures { result ≡ load_below self other }
    {
        self < other
    }
}
