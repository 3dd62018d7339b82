// The messages that wait for one server; the lane's calls are in lane_calls.rt.
ghost use Rattle.masks.specs.Listed.{Names};
ghost use Rattle.masks.specs.Table.{masks_of};
ghost use Rattle.std.specs.Prelude.{◌≡◌, ⊤};

use crate::store::Store;
use crate::table::MaskTable;
use std::alloc::AllocError;

// The masks by row and phase, and the places of those that are not empty in a store.
pub(crate) struct Lane<S: Store> {
    pub(crate) masks: MaskTable,
    pub(crate) store: S,
    ghost named: { Names (S.listed store) (masks_of masks) },
}

impl<S: Store> Copy for Lane<S> {}

// Written out, since a generic struct with a ghost field has no derived `Clone`.
impl<S: Store> Clone for Lane<S> {
    ghost is_clone = { λ lane copy. copy ≡ lane };

    ghost is_infallible = { λ _. ⊤ };

    // The lane itself.
    fn clone(&self) -> Result<Lane<S>, AllocError> {
        Ok(*self)
    }
}
