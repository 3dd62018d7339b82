// Tags: the order in which writes take effect.
ghost use Rattle.operation.specs.Tags.{higher_tag, tag_below, tag_key};
ghost use Rattle.std.specs.Prelude.{◌≡◌, max, ◌==◌, nat_le, nat_lt};

// The tag of a started write: a number and the server that started it, compared in that order.
#[derive(Clone, Copy, Debug, PartialEq, Eq, PartialOrd, Ord)]
pub struct Tag {
    number: u32,
    server: u8,
}

impl Tag {
    // The tag of the first value, below every other.
    pub const FIRST: Tag = Tag {
        number: 0,
        server: 0,
    };

    // The tag with this number, started at this server.
    pub fn new(number: u32, server: u8) -> Tag
        ensures { result ≡ record { number = number; server = server } }
    {
        Tag { number, server }
    }

    // Its number, which decides first.
    pub fn number(self) -> u32
        ensures { result ≡ self.number }
    {
        self.number
    }

    // The server that started the write, which decides between equal numbers.
    pub fn server(self) -> u8
        ensures { result ≡ self.server }
    {
        self.server
    }

    // Whether it is the tag of the first value.
    pub fn is_first(self) -> bool
        ensures { result ≡ (tag_key self == 0) }
    {
        self == Tag::FIRST
    }

    // Whether this tag is below the other: by number, then by server.
    // It stands beside `<`, and the next two beside `<=` and std's `max`, since proofs of the fleet and of a server read from its clauses the tag as one number.
    pub fn is_below(self, other: Tag) -> bool
        ensures order { result ≡ tag_below self other }
        ensures keys { result ≡ nat_lt (tag_key self) (tag_key other) }
    {
        self < other
    }

    // Whether this tag is not above the other.
    pub fn is_up_to(self, other: Tag) -> bool
        ensures { result ≡ nat_le (tag_key self) (tag_key other) }
    {
        self <= other
    }

    // The higher of the two tags.
    pub fn max(self, other: Tag) -> Tag
        ensures higher { result ≡ higher_tag self other }
        ensures keys { tag_key result ≡ max (tag_key self) (tag_key other) }
    {
        Ord::max(self, other)
    }
}
