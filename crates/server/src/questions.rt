// What is asked of one server, and of what it keeps of one row.
ghost use Rattle.counting.specs.Below.{any, sum};
ghost use Rattle.std.specs.Prelude.{◌<◌, ◌≤◌, ◌≡◌};
ghost use Rattle.server.specs.Cells.{entry_count, has_entry, has_write, is_pending};
ghost use Rattle.server.specs.Servers.{cell_at, count_at};

use crate::cell::Cell;
use crate::server::Server;
use messages::Row;
use operation::Tag;
use servers::ServerSet;

impl Cell {
    // The mask under which the row is pending.
    pub fn pending(self) -> ServerSet
        ensures { result ≡ self.pending }
    {
        self.pending
    }

    // Whether a write waits to be forwarded.
    pub fn has_write(self) -> bool
        ensures { result ≡ has_write self }
    {
        !self.write.is_empty()
    }

    // Whether an entry waits to be forwarded: a pre-write or a write.
    pub fn has_entry(self) -> bool
        ensures { result ≡ has_entry self }
    {
        !self.prewrite.is_empty() || self.has_write()
    }

    // How many entries wait to be forwarded, at most two.
    pub fn entry_count(self) -> usize
        ensures { result ≡ entry_count self }
    {
        let prewrites = usize::from(!self.prewrite.is_empty());
        let writes = usize::from(self.has_write());
        prewrites + writes
    }
}

impl Server {
    // Whether it stands: it belongs to the ring, and has not crashed.
    pub fn is_standing(&self) -> bool
        ensures { result ≡ self.now.standing }
    {
        self.standing
    }

    // Its held row.
    pub fn held(&self) -> Row
        ensures { result ≡ self.now.held }
    {
        self.held
    }

    // Its returned tag.
    pub fn returned(&self) -> Tag
        ensures { result ≡ self.now.returned }
    {
        self.returned
    }

    // The servers whose crash it has noticed.
    pub fn noticed(&self) -> ServerSet
        ensures { result ≡ self.now.noticed }
    {
        self.noticed
    }

    // Its turn count of the group; 0 of a number above 7, which names none.
    pub fn turn_count(&self, group: usize) -> u16
        ensures group { group < 8 → result ≡ count_at self.now group }
        ensures no_group { 8 ≤ group → result ≡ 0 }
    {
        self.turn_counts.get(group).copied().unwrap_or(0)
    }

    // The masks of the row.
    pub fn cell(&self, row: Row) -> Cell
        ensures { result ≡ cell_at self.now row.0 }
    {
        self.cells[row.0 as usize]
    }

    // Whether any row is pending.
    pub fn some_pending(&self) -> bool
        ensures { result ≡ any (λ r. is_pending (cell_at self.now r)) 256 }
    {
        self.cells.iter().any(|cell| !cell.pending.is_empty())
    }

    // Whether any entry waits to be forwarded.
    pub fn some_entry(&self) -> bool
        ensures { result ≡ any (λ r. has_entry (cell_at self.now r)) 256 }
    {
        self.cells.iter().any(|cell| cell.has_entry())
    }

    // How many entries wait to be forwarded.
    pub fn entry_count(&self) -> usize
        ensures { result ≡ sum (λ r. entry_count (cell_at self.now r)) 256 }
    {
        self.cells.iter().map(|cell| cell.entry_count()).sum()
    }
}
