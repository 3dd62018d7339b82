// Which entry of a group goes first: the one whose row has the smallest tag.
ghost use Rattle.std.specs.Prelude.{◌≡◌, ℕ, ◌<◌, length, slice_index_or};
ghost use Rattle.choices.specs.Keys.{IsEntry};
ghost use Rattle.choices.specs.declared.keys.Candidate.TheVariants.{Absent};
ghost use Rattle.fleet.specs.View.{state};
ghost use Rattle.journal.specs.Questions.{row_found};
ghost use Rattle.journal.specs.View.{view};
ghost use Rattle.model.specs.Turns.{has_entry_of};
ghost use Rattle.counting.specs.Below.{least};

use crate::keys::{Candidate, least_waiting};
use fleet::Fleet;
use journal::Journal;
use messages::{ROWS, Row};
use operation::Tag;
use std::array;

// The key of the row's entry to forward at the server, if there is one and its tag names the group.
fn entry_key(
    fleet: &Fleet,
    journal: &Journal,
    server: usize,
    group: usize,
    row: Row,
) -> Candidate<Tag>
    ensures { IsEntry (has_entry_of (state fleet.now (view journal.now)) server group row.0) ((view journal.now).tag row.0) result }
{
    let tag = journal.tag_of(row);
    if fleet.has_entry(server, row) && tag.server() as usize == group {
        Candidate::Waits(tag)
    } else {
        Candidate::Absent
    }
}

// The keys of all rows.
fn entry_keys(
    fleet: &Fleet,
    journal: &Journal,
    server: usize,
    group: usize,
) -> [Candidate<Tag>; ROWS]
    ensures sized { length result ≡ 256 }
    ensures keys { (k : ℕ) → k < 256 → IsEntry (has_entry_of (state fleet.now (view journal.now)) server group k) ((view journal.now).tag k) (slice_index_or result k Absent) }
{
    array::from_fn(|k| entry_key(fleet, journal, server, group, Row(k as u8)))
}

// The row of the group's first entry to forward at the server, none if the group has none.
pub fn first_entry(fleet: &Fleet, journal: &Journal, server: usize, group: usize) -> Option<Row>
    ensures { row_found result ≡ least (has_entry_of (state fleet.now (view journal.now)) server group) (view journal.now).tag 256 }
{
    let keys = entry_keys(fleet, journal, server, group);
    let place = least_waiting(&keys)?;
    Some(Row(place as u8))
}
