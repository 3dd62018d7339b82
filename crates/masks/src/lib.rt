// What wirings keep for the servers: the masks of each one's messages by row and phase, and a store of the places where they wait (specs/Listed).
#![tactic(auto)]

mod lane;
mod lane_calls;
mod methods;
mod server_lane_calls;
mod server_lanes;
mod store;
mod table;

use messages::{Phase, Place, ROWS, Row};
pub use server_lanes::ServerLanes;
pub use store::Store;
pub use table::MaskTable;

// One place for each row and each of the two phases: no list of a server's places needs more.
pub const PLACES: usize = 2 * ROWS;

// What fills a list of places behind its last one. It is no `Default`: no place is one by itself.
pub const NO_PLACE: Place = Place {
    row: Row(0),
    phase: Phase::PreWrite,
};
