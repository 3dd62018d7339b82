// How rows come into the journal, and what happens to one of them before its answer.
ghost use Rattle.journal.specs.Changes.{begun_unless_full, given_up_if_open, started_if_queued};
ghost use Rattle.journal.specs.Questions.{next_row, no_journal};
ghost use Rattle.journal.specs.View.{view};
ghost use Rattle.model.specs.JournalChanges.{new_journal};
ghost use Rattle.operation.specs.Parts.{asks_to_write, threshold_asked};
ghost use Rattle.std.specs.Prelude.{◌≡◌};

use crate::journal::Journal;
use messages::{ROWS, Row};
use operation::{Event, Operation, Request, Tag};

impl Journal {
    // The journal of a ring that was never made: no row is used.
    pub fn empty() -> Journal
        ensures { view result ≡ no_journal }
    {
        Journal {
            used: 0,
            mark: 0,
            rows: [Operation::UNUSED; ROWS],
        }
    }

    // Makes the journal new: row 0 is the first value, and no other row is used.
    pub fn reset(&mut self)
        ensures { view self.new ≡ new_journal }
    {
        self.rows = [Operation::UNUSED; ROWS];
        self.rows[0] = Operation::FIRST;
        self.used = 1;
        self.mark = 0;
    }

    // Begins an operation of the client at the server in the next row, under the next mark; gives none where all rows are used.
    pub fn begin(&mut self, client: u8, server: u8, request: Request) -> Option<Row>
        ensures row { result ≡ next_row (view self.old) }
        ensures after { view self.new ≡ begun_unless_full (view self.old) (asks_to_write request) client server (threshold_asked request) }
    {
        if self.used >= ROWS {
            return None;
        }
        let row = Row(self.used as u8);
        let mark = self.mark + 1;
        self.rows[self.used] = self.rows[self.used].after(Event::Begin {
            client,
            server,
            mark,
            request,
        });
        self.used += 1;
        self.mark = mark;
        Some(row)
    }

    // Starts the write of the row, if it is queued at the server; its tag has the number after that of the row `above`.
    pub fn start(&mut self, row: Row, server: u8, above: Row)
        ensures { view self.new ≡ started_if_queued (view self.old) row.0 server above.0 }
    {
        let operation = self.rows[row.0 as usize];
        if operation.is_queued_at(server) {
            let number = self.rows[above.0 as usize].tag().number() + 1;
            self.rows[row.0 as usize] = operation.after(Event::Start(Tag::new(number, server)));
        }
    }

    // Gives up the operation of the row, if it is open.
    pub fn give_up(&mut self, row: Row)
        ensures { view self.new ≡ given_up_if_open (view self.old) row.0 }
    {
        let operation = self.rows[row.0 as usize];
        if operation.is_open() {
            self.rows[row.0 as usize] = operation.after(Event::GiveUp);
        }
    }
}
