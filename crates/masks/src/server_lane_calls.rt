// The calls of the lanes of all servers: what each call of a wiring does to the lane of one of them.
// Where a lane changes it is lent through a variable, `lanes`: the checker does not follow a loan through two structs with ghost fields at once.
ghost use Rattle.masks.specs.Lines.{ChosenAt, arrived_at, emptied_at, lanes_wait, lines_at, place_of, places_at};
ghost use Rattle.messages.specs.Waiting.{Taken, cleared, nothing, put_in, waiting_count};
ghost use Rattle.std.specs.Prelude.{◌≡◌, []};

use crate::lane::Lane;
use crate::server_lanes::ServerLanes;
use crate::store::Store;
use messages::{Message, Place};
use servers::{SERVERS, ServerSet};

impl<S: Store> ServerLanes<S> {
    // Nothing waits.
    pub fn new() -> ServerLanes<S>
        ensures waiting { lanes_wait result ≡ nothing }
        ensures line { lines_at result ≡ (λ server. []) }
    {
        ServerLanes {
            lanes: [Lane::new(); SERVERS],
        }
    }

    // A message of the row and phase that waits for the server keeps its place; else the new one comes last. Numbers that are no place put nothing.
    pub fn put(&mut self, to: usize, row: usize, phase: u8, mask: ServerSet)
        ensures waiting { lanes_wait self.new ≡ put_in (lanes_wait self.old) to row phase mask.bits }
        ensures line { lines_at self.new ≡ arrived_at (lines_at self.old) (lanes_wait self.old) to row phase mask.bits }
    {
        if to >= SERVERS {
            return;
        }
        let Ok(place) = Place::try_from((row, phase)) else {
            return;
        };
        let lanes = &mut self.lanes;
        lanes[to].put(place, mask);
    }

    // The message of the place that the server's store hands out for the number, none of a server above 7.
    pub fn take(&mut self, server: usize, number: usize) -> Option<Message>
        ensures waiting { Taken (lanes_wait self.old) server result (lanes_wait self.new) }
        ensures choice { ChosenAt S.chosen (places_at self.old) server number (place_of result) (places_at self.new) }
    {
        if server >= SERVERS {
            return None;
        }
        let lanes = &mut self.lanes;
        lanes[server].take(number)
    }

    // How many messages wait for the server, none for one above 7.
    pub fn count(&self, server: usize) -> usize
        ensures { result ≡ waiting_count (lanes_wait self.now) server }
    {
        if server >= SERVERS {
            return 0;
        }
        self.lanes[server].count()
    }

    // Empties the lane of the server.
    pub fn clear(&mut self, server: usize)
        ensures waiting { lanes_wait self.new ≡ cleared (lanes_wait self.old) server }
        ensures line { lines_at self.new ≡ emptied_at (lines_at self.old) server }
    {
        if server < SERVERS {
            self.lanes[server] = Lane::new();
        }
    }
}
