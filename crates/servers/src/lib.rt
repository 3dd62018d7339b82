// Sets of servers: who is in them is defined in specs/Sets.
#![tactic(auto)]

ghost use Rattle.servers.specs.Sets.{alone, has, join};
ghost use Rattle.std.specs.Prelude.{◌≡◌, ◌==◌};

// Servers are numbered from 0 to 7.
pub const SERVERS: usize = 8;

// A set of servers: server k is in it where the bit of weight 2^k is set.
#[derive(Clone, Copy, Debug, PartialEq, Eq)]
pub struct ServerSet {
    bits: u8,
}

impl ServerSet {
    // The set with no server in it.
    pub fn empty() -> ServerSet
        ensures { result.bits ≡ 0 }
    {
        ServerSet { bits: 0 }
    }

    // The set of one server; of a number above 7 it is empty.
    pub fn only(server: usize) -> ServerSet
        ensures { result.bits ≡ alone server }
    {
        if server < SERVERS {
            ServerSet { bits: 1 << server }
        } else {
            ServerSet::empty()
        }
    }

    // Whether the server is in the set; no number above 7 is.
    pub fn contains(self, server: usize) -> bool
        ensures { result ≡ has self.bits server }
    {
        server < SERVERS && (self.bits >> server) & 1 == 1
    }

    // The servers of both sets together.
    pub fn union(self, other: ServerSet) -> ServerSet
        ensures { result.bits ≡ join self.bits other.bits }
    {
        ServerSet {
            bits: self.bits | other.bits,
        }
    }

    // The set with this server too; a number above 7 adds nothing.
    pub fn with(self, server: usize) -> ServerSet
        ensures { result.bits ≡ join self.bits (alone server) }
    {
        self.union(ServerSet::only(server))
    }

    // Whether no server is in the set.
    pub fn is_empty(self) -> bool
        ensures { result ≡ (self.bits == 0) }
    {
        self.bits == 0
    }
}
