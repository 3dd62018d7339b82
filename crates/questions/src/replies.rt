// The question what was told of an operation.
ghost use Rattle.fleet.specs.declared.fleet.Fleet.{Fleet};
ghost use Rattle.journal.specs.View.{view};
ghost use Rattle.messages.specs.Waiting.{Waiting};
ghost use Rattle.model.specs.Questions.{answer};
ghost use Rattle.questions.specs.Replies.{reply_of, writes};
ghost use Rattle.sending.specs.View.{shelf};
ghost use Rattle.std.specs.Prelude.{◌≡◌};

use crate::answers::{Answer, Kind};
use journal::Journal;
use messages::{ROWS, Row};
use model::Refusal;

// The kind of the operation of the row. No conversion: a bool says nothing of kinds elsewhere.
fn kind_of(journal: &Journal, row: Row) -> Kind
    ensures { writes result ≡ (view journal.now).is_write row.0 }
{
    if journal.is_write(row) {
        Kind::Write
    } else {
        Kind::Read
    }
}

// What is told of the operation of the row, once it is answered.
pub fn answer<V: Copy>(journal: &Journal, values: &[V], row: usize) -> Result<Answer<V>, Refusal>
    ensures { (f : Fleet) (w : Waiting) (d : V) → reply_of result ≡ answer (shelf d journal.now f w values.now) row }
{
    let row = Row::try_from(row).map_err(|_| Refusal::NotUsed)?;
    if !journal.is_used(row) {
        return Err(Refusal::NotUsed);
    }
    if !journal.is_answered(row) {
        return Err(Refusal::NotAnswered);
    }
    if values.len() != ROWS {
        return Err(Refusal::WrongRowCount);
    }
    let named = journal.named_row(row);
    Ok(Answer {
        tag: journal.tag_of(named),
        client: journal.client_of(row),
        kind: kind_of(journal, row),
        value: values[named.0 as usize],
    })
}
