// The lanes of all servers; their calls are in server_lane_calls.rt.
ghost use Rattle.std.specs.Prelude.{◌≡◌, length, ⊤};

use crate::lane::Lane;
use crate::store::Store;
use servers::SERVERS;
use std::alloc::AllocError;

// One lane for each server.
pub struct ServerLanes<S: Store> {
    pub(crate) lanes: [Lane<S>; SERVERS],
    ghost eight: { length lanes ≡ 8 },
}

impl<S: Store> Copy for ServerLanes<S> {}

// Written out, since a generic struct with a ghost field has no derived `Clone`.
impl<S: Store> Clone for ServerLanes<S> {
    ghost is_clone = { λ lanes copy. copy ≡ lanes };

    ghost is_infallible = { λ _. ⊤ };

    // The lanes themselves.
    fn clone(&self) -> Result<ServerLanes<S>, AllocError> {
        Ok(*self)
    }
}
