// The table's calls: a new one, a mask that joins, a message that goes out.
ghost use Rattle.masks.specs.Table.{GoesOut, all_empty, is_new, joined_mask, masks_of, with_mask};
ghost use Rattle.messages.specs.Phases.{phase_number};
ghost use Rattle.std.specs.Prelude.{◌≡◌};

use crate::table::{MaskTable, RowMasks};
use messages::{Message, Phase, Place, ROWS};
use servers::ServerSet;

impl MaskTable {
    // Every mask is empty.
    pub fn new() -> MaskTable
        ensures { masks_of result ≡ all_empty }
    {
        let none = RowMasks {
            pre_write: ServerSet::empty(),
            write: ServerSet::empty(),
        };
        MaskTable { rows: [none; ROWS] }
    }

    // The mask joins the one of the place. Says whether that was empty and is not any more, so that a new message waits.
    pub fn join(&mut self, place: Place, mask: ServerSet) -> bool
        ensures masks { masks_of self.new ≡ joined_mask (masks_of self.old) place.row.0 (phase_number place.phase) mask.bits }
        ensures new { result ≡ is_new (masks_of self.old) place.row.0 (phase_number place.phase) mask.bits }
    {
        let waiting = self.at(place);
        self.set(place, waiting.union(mask));
        waiting.is_empty() && !mask.is_empty()
    }

    // The message of the place goes out, and its mask is empty.
    pub fn take_out(&mut self, place: Place) -> Message
        ensures { GoesOut place (masks_of self.old) result (masks_of self.new) }
    {
        let mask = self.at(place);
        self.set(place, ServerSet::empty());
        Message {
            row: place.row,
            phase: place.phase,
            mask,
        }
    }

    // The mask of a place.
    fn at(&self, place: Place) -> ServerSet
        ensures { result.bits ≡ masks_of self.now place.row.0 (phase_number place.phase) }
    {
        let row = self.rows[place.row.0 as usize];
        match place.phase {
            Phase::PreWrite => row.pre_write,
            Phase::Write => row.write,
        }
    }

    // The mask of a place becomes another one, and no other place changes.
    fn set(&mut self, place: Place, mask: ServerSet)
        ensures { masks_of self.new ≡ with_mask (masks_of self.old) place.row.0 (phase_number place.phase) mask.bits }
    {
        let row = place.row.0 as usize;
        match place.phase {
            Phase::PreWrite => self.rows[row].pre_write = mask,
            Phase::Write => self.rows[row].write = mask,
        }
    }
}
