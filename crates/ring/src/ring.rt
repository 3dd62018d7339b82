// The ring's memory; its calls are in calls.rt.
use sending::Memory;

// A ring: the journal of its operations and the table of its servers. Only the calls change it.
#[derive(Drop)]
pub struct Ring {
    pub(crate) memory: Memory,
}
