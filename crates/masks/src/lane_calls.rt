// The lane's calls: put joins in place or adds a place, take removes the message of a place that its store hands out.
ghost use Rattle.masks.specs.Lanes.{Gives, lane_masks};
ghost use Rattle.masks.specs.Lines.{arrived, lane_line, lane_places, place_of};
ghost use Rattle.masks.specs.Listed.{rows_hold};
ghost use Rattle.masks.specs.Table.{all_empty, joined_mask};
ghost use Rattle.messages.specs.Phases.{phase_number};
ghost use Rattle.std.specs.Prelude.{◌≡◌, []};

use crate::lane::Lane;
use crate::store::Store;
use crate::table::MaskTable;
use messages::{Message, Place};
use servers::ServerSet;

impl<S: Store> Lane<S> {
    // Nothing waits.
    pub(crate) fn new() -> Lane<S>
        ensures masks { lane_masks result ≡ all_empty }
        ensures line { lane_line result ≡ [] }
    {
        Lane {
            masks: MaskTable::new(),
            store: S::new(),
        }
    }

    // The mask joins what waits at the place; where nothing did, the place comes last in the store.
    pub(crate) fn put(&mut self, place: Place, mask: ServerSet)
        ensures masks { lane_masks self.new ≡ joined_mask (lane_masks self.old) place.row.0 (phase_number place.phase) mask.bits }
        ensures line { lane_line self.new ≡ arrived (lane_line self.old) (lane_masks self.old) place.row.0 (phase_number place.phase) mask.bits }
    {
        if self.masks.join(place, mask) {
            self.store.push(place);
        }
    }

    // Hands out and removes the message of the place that the store hands out for the number.
    pub(crate) fn take(&mut self, number: usize) -> Option<Message>
        ensures masks { Gives (lane_masks self.old) result (lane_masks self.new) }
        ensures choice { S.chosen (lane_places self.old) number (place_of result) (lane_places self.new) }
    {
        let place = self.store.take(number)?;
        Some(self.masks.take_out(place))
    }

    // How many messages wait.
    pub(crate) fn count(&self) -> usize
        ensures { result ≡ rows_hold (lane_masks self.now) 256 }
    {
        self.store.len()
    }
}
