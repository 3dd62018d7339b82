// What a ring keeps between its calls.
use fleet::Fleet;
use journal::Journal;

// The memory of a ring: the journal of its operations, and the table of its servers.
#[derive(Drop)]
pub struct Memory {
    pub journal: Journal,
    pub fleet: Fleet,
}
