// What the calls of the ring ask of the journal; no question changes it.
ghost use Rattle.counting.specs.Below.{any, count, least};
ghost use Rattle.journal.specs.Questions.{row_found};
ghost use Rattle.journal.specs.Tests.{Computes, passes_in};
ghost use Rattle.journal.specs.View.{view};
ghost use Rattle.model.specs.Operations.{open_row};
ghost use Rattle.model.specs.Questions.{named_row};
ghost use Rattle.model.specs.State.{is_open, is_open_of, is_queued, is_stray, tag_number, tag_server};
ghost use Rattle.operation.specs.Tags.{tag_key};
ghost use Rattle.operation.specs.declared.operation.Operation.{Operation};
ghost use Rattle.std.specs.Prelude.{◌≡◌, Bool, is_some, nat_le, nat_lt};

use crate::journal::Journal;
use messages::{ROWS, Row};
use operation::{Operation, Tag};

impl Journal {
    // How many rows are used, row 0 among them.
    pub fn used(&self) -> usize
        ensures { result ≡ (view self.now).used }
    {
        self.used
    }

    // Whether all rows are used.
    pub fn is_full(&self) -> bool
        ensures { result ≡ nat_le 256 (view self.now).used }
    {
        ROWS <= self.used
    }

    // Whether the row is used.
    pub fn is_used(&self, row: Row) -> bool
        ensures { result ≡ nat_lt row.0 (view self.now).used }
    {
        (row.0 as usize) < self.used
    }

    // The client of the row.
    pub fn client_of(&self, row: Row) -> u8
        ensures { result ≡ (view self.now).client row.0 }
    {
        self.rows[row.0 as usize].client()
    }

    // Whether the row is a write.
    pub fn is_write(&self, row: Row) -> bool
        ensures { result ≡ (view self.now).is_write row.0 }
    {
        self.rows[row.0 as usize].is_write()
    }

    // Whether the row is answered.
    pub fn is_answered(&self, row: Row) -> bool
        ensures { result ≡ (view self.now).answered row.0 }
    {
        self.rows[row.0 as usize].is_answered()
    }

    // The mark of the row's answer, 0 before it: the rules say 0 for no mark, and the first mark is 1.
    pub fn answer_mark(&self, row: Row) -> u32
        ensures { result ≡ (view self.now).answer_mark row.0 }
    {
        self.rows[row.0 as usize].answer_mark()
    }

    // The tag of the row, which is the first value's where the row is no started write.
    pub fn tag_of(&self, row: Row) -> Tag
        ensures key { tag_key result ≡ (view self.now).tag row.0 }
        ensures number { result.number ≡ tag_number ((view self.now).tag row.0) }
        ensures server { result.server ≡ tag_server ((view self.now).tag row.0) }
    {
        self.rows[row.0 as usize].tag()
    }

    // The row whose tag and value are told of the row: a write's own, or the one that a read gave.
    pub fn named_row(&self, row: Row) -> Row
        ensures { result.0 ≡ named_row (view self.now) row.0 }
    {
        let operation = self.rows[row.0 as usize];
        if operation.is_write() {
            row
        } else {
            operation.row_given()
        }
    }

    // Whether the row is no started write, so that a message that names it is stray.
    pub fn is_stray(&self, row: Row) -> bool
        ensures { result ≡ is_stray (view self.now) row.0 }
    {
        row.0 == 0 || self.rows[row.0 as usize].tag().is_first()
    }

    // The lowest used row whose operation passes the test, if there is one.
    fn first_row<F: Fn(Operation) -> bool>(&self, passes: F) -> Option<Row>
        requires { F.IsAlwaysCallable passes }
        ensures { (test : Operation → Bool) → Computes (F.post passes) test → row_found result ≡ least (passes_in self.now test) (λ k. k) 256 }
    {
        let k = self.rows[..self.used]
            .iter()
            .position(|operation| passes(*operation))?;
        Some(Row(k as u8))
    }

    // How many used rows hold an operation that passes the test. Each adds what its test says, since `filter` and `count` branch at each row and cost up to half as many instructions again.
    fn row_count<F: Fn(Operation) -> bool>(&self, passes: F) -> u16
        requires { F.IsAlwaysCallable passes }
        ensures { (test : Operation → Bool) → Computes (F.post passes) test → result ≡ count (passes_in self.now test) 256 }
    {
        self.rows[..self.used]
            .iter()
            .map(|operation| u16::from(passes(*operation)))
            .sum()
    }

    // The open row of the client, if it has one.
    pub fn open_row(&self, client: u8) -> Option<Row>
        ensures found { row_found result ≡ open_row (view self.now) client }
        ensures some { is_some result ≡ any (is_open_of (view self.now) client) 256 }
    {
        self.first_row(|operation| operation.is_open_of(client))
    }

    // The lowest row whose write is queued at the server, if there is one.
    pub fn first_queued(&self, server: u8) -> Option<Row>
        ensures found { row_found result ≡ least (is_queued (view self.now) server) (λ k. k) 256 }
        ensures some { is_some result ≡ any (is_queued (view self.now) server) 256 }
    {
        self.first_row(|operation| operation.is_queued_at(server))
    }

    // How many writes are queued at the server, given up or not.
    pub fn queued_count(&self, server: u8) -> u16
        ensures { result ≡ count (is_queued (view self.now) server) 256 }
    {
        self.row_count(|operation| operation.is_queued_at(server))
    }

    // How many operations are open.
    pub fn open_count(&self) -> u16
        ensures { result ≡ count (is_open (view self.now)) 256 }
    {
        self.row_count(Operation::is_open)
    }
}
