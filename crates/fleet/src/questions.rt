// What the calls of the ring ask of one server. A number above 7 names no server: it does not stand, and nothing is kept of it.
ghost use Rattle.std.specs.Prelude.{◌≡◌, ◌<◌, ◌≤◌, nat_lt};
ghost use Rattle.table.specs.Table.{server_at};
ghost use Rattle.fleet.specs.View.{servers, state};
ghost use Rattle.model.specs.Deliveries.{ends_at};
ghost use Rattle.circle.specs.Circle.{next};
ghost use Rattle.model.specs.State.{is_news};
ghost use Rattle.operation.specs.Tags.{tag_key};
ghost use Rattle.server.specs.Servers.{cell_at};
ghost use Rattle.journal.specs.View.{view};

use crate::fleet::Fleet;
use around::{covers, next_of, stands_in};
use journal::Journal;
use messages::Row;
use operation::Tag;
use server::Cell;
use servers::ServerSet;

impl Fleet {
    // How many servers the ring has, 0 if it was never made.
    pub fn size(&self) -> usize
        ensures is { result ≡ self.now.size }
        ensures few { result ≤ 8 }
    {
        self.size
    }

    // Whether the server stands.
    pub fn is_standing(&self, server: usize) -> bool
        ensures { result ≡ (servers self.now).standing server }
    {
        self.list
            .get(server)
            .is_some_and(|found| found.is_standing())
    }

    // The server's held row.
    pub fn held(&self, server: usize) -> Row
        ensures { result.0 ≡ (servers self.now).held server }
    {
        self.list.get(server).map_or(Row(0), |found| found.held())
    }

    // The server's returned tag.
    pub fn returned(&self, server: usize) -> Tag
        ensures { tag_key result ≡ (servers self.now).returned server }
    {
        self.list
            .get(server)
            .map_or(Tag::FIRST, |found| found.returned())
    }

    // The servers whose crash the server has noticed.
    fn noticed(&self, server: usize) -> ServerSet
        ensures { result ≡ (server_at self.now.list server).noticed }
    {
        self.list
            .get(server)
            .map_or(ServerSet::empty(), |found| found.noticed())
    }

    // Whether the server has noticed the crash of the other one.
    pub fn has_noticed(&self, server: usize, other: usize) -> bool
        ensures { result ≡ (servers self.now).noticed server other }
    {
        self.noticed(server).contains(other)
    }

    // The server's turn count of the group; a number above 7 names no group.
    pub fn turn_count(&self, server: usize, group: usize) -> u16
        ensures { result ≡ (servers self.now).turn_count server group }
    {
        self.list
            .get(server)
            .map_or(0, |found| found.turn_count(group))
    }

    // What the server keeps of the row.
    pub(crate) fn cell(&self, server: usize, row: Row) -> Cell
        ensures { result ≡ cell_at (server_at self.now.list server) row.0 }
    {
        self.list
            .get(server)
            .map_or(Cell::empty(), |found| found.cell(row))
    }

    // The mask under which the row is pending at the server, empty where it is not.
    pub fn pending(&self, server: usize, row: Row) -> ServerSet
        ensures { result.bits ≡ (servers self.now).pending server row.0 }
    {
        self.cell(server, row).pending()
    }

    // Whether the server has a write of the row to forward: of one row, it goes before the pre-write.
    pub fn has_write(&self, server: usize, row: Row) -> bool
        ensures { result ≡ nat_lt 0 ((servers self.now).forward_write server row.0) }
    {
        self.cell(server, row).has_write()
    }

    // The next of the server.
    pub fn next_of(&self, server: usize) -> usize
        ensures is { result ≡ next self.now.size ((servers self.now).noticed server) server }
        ensures within { server < self.now.size → result < self.now.size }
    {
        next_of(self.size, self.noticed(server), server)
    }

    // Whether a message of the row with this mask ends at the server: it is stand-in for the server in the row's tag, and the mask covers.
    pub fn ends_at(&self, server: usize, row: Row, mask: ServerSet, journal: &Journal) -> bool
        ensures { result ≡ ends_at (state self.now (view journal.now)) server row.0 mask.bits }
    {
        let noticed = self.noticed(server);
        let origin = journal.tag_of(row).server() as usize;
        stands_in(self.size, noticed, server, origin) && covers(self.size, noticed, server, mask)
    }

    // Whether the row's tag is above that of the row that the server holds.
    pub fn is_news(&self, server: usize, row: Row, journal: &Journal) -> bool
        ensures { result ≡ is_news (state self.now (view journal.now)) server row.0 }
    {
        journal
            .tag_of(self.held(server))
            .is_below(journal.tag_of(row))
    }
}
