// Tags, the keys of writes.
ghost use Rattle.search_tests.specs.Keys.{tag_below};
ghost use Rattle.std.specs.Prelude.{◌≡◌};

// A number and the server that gave it, compared in that order.
#[derive(Clone, Copy, PartialEq, Eq, PartialOrd, Ord)]
pub struct Tag {
    pub number: u32,
    pub server: u8,
}

impl Tag {
    // By number, then server. Its clause pins the derived order.
    pub fn is_below(self, other: Tag) -> bool
        ensures { result ≡ tag_below self other }
    {
        self < other
    }
}
