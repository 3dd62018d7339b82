// The journal's memory, and the facts that hold of it between calls.
ghost use Rattle.std.specs.Prelude.{◌≡◌, ℕ, ◌+◌, ◌≤◌, true, length, nat_lt};
ghost use Rattle.journal.specs.Rows.{how_many, state_at, tag_number_at};
ghost use Rattle.operation.specs.Parts.{has_tag, is_answered, is_numbered, is_taken};

use messages::ROWS;
use operation::Operation;

// The rows of all operations, in the order in which they began; `mark` is the last mark given.
// All 256 rows stand here from the start, used or not: the journal takes no heap, and the rules speak of the unused rows too.
// No model of its own: the private calls speak of the fields.
#[derive(Drop)]
pub struct Journal {
    pub(crate) used: usize,
    pub(crate) mark: u32,
    pub(crate) rows: [Operation; ROWS],
    // There are 256 rows, and no more are used.
    ghost sized: { length rows ≡ 256 },
    ghost room: { used ≤ 256 },
    // Exactly the rows below `used` are taken.
    ghost taken: { (k : ℕ) → is_taken (state_at rows k) ≡ nat_lt k used },
    // Each beginning and each answer takes one mark, so marks stay far below what a number holds.
    ghost marks: { mark ≤ used + how_many is_answered rows },
    // A started write has another tag than the first value.
    ghost numbered: { (k : ℕ) → is_numbered (state_at rows k) ≡ true },
    // No tag has a higher number than there are writes with a tag, so numbers stay as small.
    ghost numbers: { (k : ℕ) → tag_number_at rows k ≤ how_many has_tag rows },
}
