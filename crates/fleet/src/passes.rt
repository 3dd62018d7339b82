// What the calls of the ring ask of all rows at one server, each in one pass, and of all servers.
ghost use Rattle.fleet.specs.View.{servers, state};
ghost use Rattle.journal.specs.View.{view};
ghost use Rattle.model.specs.Questions.{forward_count};
ghost use Rattle.model.specs.State.{highest_pending, is_pending, some_pending, tag_number};
ghost use Rattle.model.specs.Turns.{fresh_number, has_entry, some_entry};
ghost use Rattle.counting.specs.Below.{count};
ghost use Rattle.operation.specs.Tags.{tag_key};
ghost use Rattle.std.specs.Prelude.{◌≡◌, ◌+◌};

use crate::fleet::Fleet;
use journal::Journal;
use messages::{ROWS, Row};
use operation::Tag;

impl Fleet {
    // Whether the row is pending at the server.
    pub fn is_pending(&self, server: usize, row: Row) -> bool
        ensures { result ≡ is_pending (servers self.now) server row.0 }
    {
        !self.pending(server, row).is_empty()
    }

    // Whether any row is pending at the server.
    pub fn some_pending(&self, server: usize) -> bool
        ensures { result ≡ some_pending (servers self.now) server }
    {
        self.list
            .get(server)
            .is_some_and(|found| found.some_pending())
    }

    // The highest pending tag at the server, the first tag if nothing is pending. The test stands in the fold, here and in the next: a `filter` before it makes the pass slower.
    pub fn highest_pending(&self, server: usize, journal: &Journal) -> Tag
        ensures { tag_key result ≡ highest_pending (state self.now (view journal.now)) server }
    {
        (0..ROWS)
            .map(|k| Row(k as u8))
            .fold(Tag::FIRST, |highest, row| {
                if self.is_pending(server, row) {
                    highest.max(journal.tag_of(row))
                } else {
                    highest
                }
            })
    }

    // The row that the server holds or that is pending there with the highest tag: a write that starts there takes the number after its.
    pub fn highest_row(&self, server: usize, journal: &Journal) -> Row
        ensures { 1 + tag_number ((view journal.now).tag result.0) ≡ fresh_number (state self.now (view journal.now)) server }
    {
        (0..ROWS)
            .map(|k| Row(k as u8))
            .fold(self.held(server), |highest, row| {
                if self.is_pending(server, row)
                    && journal.tag_of(highest).is_below(journal.tag_of(row))
                {
                    row
                } else {
                    highest
                }
            })
    }

    // Whether the server has an entry of the row to forward.
    pub fn has_entry(&self, server: usize, row: Row) -> bool
        ensures { result ≡ has_entry (servers self.now) server row.0 }
    {
        self.cell(server, row).has_entry()
    }

    // Whether the server has any entry to forward.
    pub fn some_entry(&self, server: usize) -> bool
        ensures { result ≡ some_entry (servers self.now) server }
    {
        self.list
            .get(server)
            .is_some_and(|found| found.some_entry())
    }

    // How many entries the server has to forward.
    pub fn forward_count(&self, server: usize) -> usize
        ensures { result ≡ forward_count (servers self.now) server }
    {
        self.list.get(server).map_or(0, |found| found.entry_count())
    }

    // How many servers stand.
    pub fn standing_count(&self) -> usize
        ensures { result ≡ count (servers self.now).standing self.now.size }
    {
        (0..self.size)
            .filter(|server| self.is_standing(*server))
            .count()
    }
}
