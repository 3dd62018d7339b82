// Which group goes next: the one that waits with the smallest turn count, on a tie the smallest.
ghost use Rattle.std.specs.Prelude.{◌≡◌, ℕ, ◌<◌, length, slice_index_or};
ghost use Rattle.choices.specs.Keys.{IsGroup};
ghost use Rattle.choices.specs.declared.keys.Candidate.TheVariants.{Absent};
ghost use Rattle.fleet.specs.View.{servers, state};
ghost use Rattle.journal.specs.View.{view};
ghost use Rattle.model.specs.ServerChanges.{counts_if};
ghost use Rattle.model.specs.Turns.{chosen_group, group_waits, has_entry_of};
ghost use Rattle.counting.specs.Below.{any};
ghost use Rattle.servers.specs.Sets.{has};

use crate::keys::{Candidate, GroupKey, least_waiting};
use fleet::Fleet;
use journal::Journal;
use messages::{ROWS, Row};
use servers::{SERVERS, ServerSet};
use std::array;

// The groups of which the server has an entry to forward. The test stands in the fold: a `filter` before it makes a turn slower.
fn groups_to_forward(fleet: &Fleet, journal: &Journal, server: usize) -> ServerSet
    ensures { (j : ℕ) → j < 8 → has result.bits j ≡ any (has_entry_of (state fleet.now (view journal.now)) server j) 256 }
{
    (0..ROWS)
        .map(|k| Row(k as u8))
        .fold(ServerSet::empty(), |groups, row| {
            if fleet.has_entry(server, row) {
                groups.with(journal.tag_of(row).server() as usize)
            } else {
                groups
            }
        })
}

// The groups that wait at the server: those of its entries to forward, and its own if a write is queued there.
pub fn groups_waiting(fleet: &Fleet, journal: &Journal, server: usize) -> ServerSet
    ensures { (j : ℕ) → j < 8 → has result.bits j ≡ group_waits (state fleet.now (view journal.now)) server j }
{
    let groups = groups_to_forward(fleet, journal, server);
    if server < SERVERS && journal.first_queued(server as u8).is_some() {
        groups.with(server)
    } else {
        groups
    }
}

// The key of the group, if it waits. Where no entry is to be forwarded, all counts begin at 0.
fn group_key(
    fleet: &Fleet,
    server: usize,
    groups: ServerSet,
    some_entry: bool,
    group: u8,
) -> Candidate<GroupKey>
    ensures { IsGroup (has groups.bits group) (counts_if some_entry (servers fleet.now) server group) group result }
{
    if !groups.contains(group as usize) {
        return Candidate::Absent;
    }
    let count = if some_entry {
        fleet.turn_count(server, group as usize)
    } else {
        0
    };
    Candidate::Waits(GroupKey { count, group })
}

// The keys of all groups.
fn group_keys(
    fleet: &Fleet,
    server: usize,
    groups: ServerSet,
    some_entry: bool,
) -> [Candidate<GroupKey>; SERVERS]
    ensures sized { length result ≡ 8 }
    ensures keys { (j : ℕ) → j < 8 → IsGroup (has groups.bits j) (counts_if some_entry (servers fleet.now) server j) j (slice_index_or result j Absent) }
{
    array::from_fn(|group| group_key(fleet, server, groups, some_entry, group as u8))
}

// The group whose turn it is at the server, none if no group waits: then it is not asked whether there is any entry, and no keys are made.
pub fn chosen_group(fleet: &Fleet, journal: &Journal, server: usize) -> Option<usize>
    ensures { result ≡ chosen_group (state fleet.now (view journal.now)) server }
{
    let groups = groups_waiting(fleet, journal, server);
    if groups.is_empty() {
        return None;
    }
    let keys = group_keys(fleet, server, groups, fleet.some_entry(server));
    least_waiting(&keys)
}
