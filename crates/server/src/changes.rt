// How the calls of the ring change a server, each change in place.
ghost use Rattle.std.specs.Prelude.{◌<◌, max, ltb, cond, ◌≡◌};
ghost use Rattle.journal.specs.View.{view};
ghost use Rattle.operation.specs.Tags.{tag_key};
ghost use Rattle.server.specs.Changes.{new_server, server_counted, server_holds, server_keeps, server_notices, server_raises, server_ready, server_releases_prewrite, server_releases_write, server_starts, server_stops};
ghost use Rattle.server.specs.Servers.{cell_at};
ghost use Rattle.servers.specs.Sets.{alone, join};

use crate::cell::Cell;
use crate::server::Server;
use journal::Journal;
use messages::{Phase, ROWS, Row};
use operation::Tag;
use servers::{SERVERS, ServerSet};

// The highest turn count; before a count would pass it, all counts go to 0.
const HIGHEST_COUNT: u16 = 65535;

impl Server {
    // A new server, which holds row 0 and has nothing to forward.
    pub fn new(standing: bool) -> Server
        ensures { result ≡ new_server standing }
    {
        Server {
            standing,
            held: Row(0),
            returned: Tag::FIRST,
            noticed: ServerSet::empty(),
            turn_counts: [0; SERVERS],
            cells: [Cell::empty(); ROWS],
        }
    }

    // It holds the row, and rows whose tags are not above that row's are no longer pending.
    pub fn hold(&mut self, row: Row, journal: &Journal)
        ensures { self.new ≡ server_holds self.old (view journal.now).tag row.0 }
    {
        let tag = journal.tag_of(row);
        for (k, cell) in self.cells.iter_mut().enumerate() {
            if journal.tag_of(Row(k as u8)).is_up_to(tag) {
                cell.set_pending(ServerSet::empty());
            }
        }
        self.held = row;
    }

    // It raises its returned tag to this one if that is higher.
    pub fn raise_returned(&mut self, tag: Tag)
        ensures after { self.new ≡ server_raises self.old tag }
        ensures keys { tag_key self.new.returned ≡ max (tag_key self.old.returned) (tag_key tag) }
    {
        self.returned = self.returned.max(tag);
    }

    // The mask joins that of the row's pre-write or write to forward.
    pub fn keep(&mut self, row: Row, phase: Phase, mask: ServerSet)
        ensures { self.new ≡ server_keeps phase self.old row.0 mask }
    {
        self.cells[row.0 as usize].keep(phase, mask);
    }

    // The row's pre-write is taken out. Gives its mask with this server added, which joins the pending mask if the row is news.
    // Not one function with the release of a write: a write is never news, and its mask joins nothing.
    pub fn release_prewrite(&mut self, row: Row, server: usize, is_news: bool) -> ServerSet
        ensures mask { result.bits ≡ join (cell_at self.old row.0).prewrite.bits (alone server) }
        ensures after { self.new ≡ server_releases_prewrite is_news self.old row.0 result }
    {
        let cell = &mut self.cells[row.0 as usize];
        let mask = cell.take(Phase::PreWrite).with(server);
        if is_news {
            cell.join_pending(mask);
        }
        mask
    }

    // The row's write is taken out. Gives its mask with this server added.
    pub fn release_write(&mut self, row: Row, server: usize) -> ServerSet
        ensures mask { result.bits ≡ join (cell_at self.old row.0).write.bits (alone server) }
        ensures after { self.new ≡ server_releases_write self.old row.0 }
    {
        self.cells[row.0 as usize].take(Phase::Write).with(server)
    }

    // The row is pending under this mask: its write starts here.
    pub fn start(&mut self, row: Row, mask: ServerSet)
        ensures { self.new ≡ server_starts self.old row.0 mask }
    {
        self.cells[row.0 as usize].set_pending(mask);
    }

    // All turn counts go to 0 if no entry waits to be forwarded, or if the count of the group is the highest.
    fn ready_counts(&mut self, group: usize, some_entry: bool)
        requires { group < 8 }
        ensures { self.new ≡ server_ready some_entry self.old group }
    {
        if !some_entry || self.turn_counts[group] == HIGHEST_COUNT {
            self.turn_counts = [0; SERVERS];
        }
    }

    // The group is chosen for a turn: its count rises by one. A number above 7 names no group, and changes nothing.
    pub fn count_turn(&mut self, group: usize, some_entry: bool)
        ensures { self.new ≡ cond (ltb group 8) (server_counted some_entry self.old group) self.old }
    {
        if group < SERVERS {
            self.ready_counts(group, some_entry);
            self.turn_counts[group] += 1;
        }
    }

    // It stops, and its masks are empty.
    pub fn stop(&mut self)
        ensures { self.new ≡ server_stops self.old }
    {
        self.standing = false;
        self.cells = [Cell::empty(); ROWS];
    }

    // It has noticed the crash of the other server.
    pub fn notice(&mut self, other: usize)
        ensures { self.new ≡ server_notices self.old other }
    {
        self.noticed = self.noticed.with(other);
    }
}
