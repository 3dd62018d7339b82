// Examples of what the wirings do, run as tests; the code here only reads messages.
#![tactic(auto)]

ghost use Rattle.wiring_tests.specs.Same.{same};
ghost use Rattle.std.specs.Prelude.{◌≡◌};

use messages::{Message, Phase, Row};
use servers::ServerSet;

#[cfg(test)]
mod tests;

// Whether a message was taken, and it is of this row, phase and mask.
pub fn took(taken: Option<Message>, row: u8, phase: Phase, mask: ServerSet) -> bool
    ensures { result ≡ same taken row phase mask }
{
    taken
        == Some(Message {
            row: Row(row),
            phase,
            mask,
        })
}
