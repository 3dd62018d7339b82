// How operations are answered: in row order, each under the next mark.
ghost use Rattle.std.specs.Prelude.{◌≡◌, ◌+◌, ◌<◌, Bool, true, slice_set};
ghost use Rattle.journal.specs.Changes.{read_answered};
ghost use Rattle.journal.specs.Rows.{operation_at};
ghost use Rattle.journal.specs.Tests.{Computes, passes_in};
ghost use Rattle.journal.specs.View.{view};
ghost use Rattle.model.specs.Deliveries.{is_due_read, is_due_write};
ghost use Rattle.model.specs.JournalChanges.{journal_answered};
ghost use Rattle.operation.specs.Events.{after};
ghost use Rattle.operation.specs.Parts.{is_answerable};
ghost use Rattle.operation.specs.Tags.{tag_key};
ghost use Rattle.operation.specs.declared.operation.Operation.{Operation};
ghost use Rattle.operation.specs.declared.operation.Event.TheVariants.{Answer};

use crate::journal::Journal;
use messages::Row;
use operation::{Event, Operation, Tag};

// The row that a write names when it is answered: writes give no value. No Option, since the rule of an answer names a row of writes too.
const NO_VALUE: Row = Row(0);

impl Journal {
    // Answers the operation of row k, which can be answered, under the next mark.
    fn answer(&mut self, k: usize, given: Row)
        requires { (k < 256) × (is_answerable (operation_at self.old.rows k) ≡ true) }
        ensures used { self.new.used ≡ self.old.used }
        ensures mark { self.new.mark ≡ self.old.mark + 1 }
        ensures rows { self.new.rows ≡ slice_set self.old.rows k (after (operation_at self.old.rows k) (Answer given (self.old.mark + 1))) }
    {
        let mark = self.mark + 1;
        self.rows[k] = self.rows[k].after(Event::Answer { row: given, mark });
        self.mark = mark;
    }

    // Answers every used row whose operation passes the test, in row order; the reads among them give the row.
    fn answer_all<F: Fn(Operation) -> bool>(&mut self, passes: F, given: Row)
        requires callable { F.IsAlwaysCallable passes }
        requires answerable { (o : Operation) → F.post passes o true → is_answerable o ≡ true }
        ensures { (test : Operation → Bool) → Computes (F.post passes) test → view self.new ≡ journal_answered (view self.old) (passes_in self.old test) given.0 }
    {
        // By number, as `answer` needs the whole journal for the mark that it gives: a borrow of the rows would hold it back.
        for k in 0..self.used {
            if passes(self.rows[k]) {
                self.answer(k, given);
            }
        }
    }

    // Answers the open reads at the server whose thresholds are not above the tag; they give the row.
    pub fn answer_reads(&mut self, server: u8, tag: Tag, given: Row)
        ensures { view self.new ≡ journal_answered (view self.old) (is_due_read (view self.old) server (tag_key tag)) given.0 }
    {
        self.answer_all(|operation| operation.is_due(server, tag), given);
    }

    // Answers the open writes started at the server with tags not above the returned one.
    pub fn answer_writes(&mut self, server: u8, returned: Tag)
        ensures { view self.new ≡ journal_answered (view self.old) (is_due_write (view self.old) server (tag_key returned)) 0 }
    {
        self.answer_all(
            |operation| operation.is_returned(server, returned),
            NO_VALUE,
        );
    }

    // Answers the read of the row straight away, if it is open; it gives the other row.
    pub fn answer_read(&mut self, row: Row, given: Row)
        ensures { view self.new ≡ read_answered (view self.old) row.0 given.0 }
    {
        if self.rows[row.0 as usize].is_open_read() {
            self.answer(row.0 as usize, given);
        }
    }
}
