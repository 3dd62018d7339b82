// Groups take turns, a held row settles those below it, and a crash leaves nothing to forward.
use choices::{chosen_group, first_entry};
use fleet::Fleet;
use journal::Journal;
use messages::{Phase, Row};
use operation::Request;
use servers::ServerSet;

// Of three servers, 1 and 2 have started the writes of rows 1 and 2, under the tags (1, 1) and (1, 2).
fn two_started_writes() -> Journal {
    let mut journal = Journal::empty();
    journal.reset();
    let _ = journal.begin(1, 1, Request::Write);
    let _ = journal.begin(2, 2, Request::Write);
    journal.start(Row(1), 1, Row(0));
    journal.start(Row(2), 2, Row(0));
    journal
}

// Three new servers.
fn three_servers() -> Fleet {
    let mut fleet = Fleet::empty();
    fleet.reset(3);
    fleet
}

#[test]
fn groups_take_turns(rt: HostRuntime) {
    let mut journal = two_started_writes();
    let mut fleet = three_servers();
    assert_eq!(rt; chosen_group(&fleet, &journal, 0), None, "nothing waits");
    fleet.keep(0, Row(1), Phase::PreWrite, ServerSet::only(1));
    fleet.keep(0, Row(2), Phase::PreWrite, ServerSet::only(2));
    assert_eq!(rt;
        chosen_group(&fleet, &journal, 0),
        Some(1),
        "on a tie the smaller group"
    );
    fleet.count_turn(0, 1, true);
    assert_eq!(rt;
        chosen_group(&fleet, &journal, 0),
        Some(2),
        "then the one with the smaller count"
    );
    assert_eq!(rt; first_entry(&fleet, &journal, 0, 2), Some(Row(2)));
    let _ = journal.begin(0, 0, Request::Write);
    assert_eq!(rt;
        chosen_group(&fleet, &journal, 0),
        Some(0),
        "a queued write waits in the server's own group"
    );
}

#[test]
fn a_held_row_settles_those_below_it(rt: HostRuntime) {
    let journal = two_started_writes();
    let mut fleet = three_servers();
    fleet.start(1, Row(1));
    let _ = fleet.release_prewrite(1, Row(2), true);
    assert!(rt; fleet.is_news(1, Row(1), &journal));
    let highest = fleet.highest_pending(1, &journal);
    assert_eq!(rt; (highest.number(), highest.server()), (1, 2));
    fleet.hold(1, Row(1), &journal);
    assert!(rt; !fleet.is_pending(1, Row(1)));
    assert!(rt; fleet.is_pending(1, Row(2)), "its tag is above");
    assert!(rt; !fleet.is_news(1, Row(1), &journal));
    assert_eq!(rt; fleet.highest_row(1, &journal), Row(2));
}

#[test]
fn a_crash_leaves_nothing_to_forward(rt: HostRuntime) {
    let mut fleet = three_servers();
    fleet.keep(2, Row(1), Phase::PreWrite, ServerSet::only(1));
    fleet.keep(2, Row(1), Phase::Write, ServerSet::only(1));
    assert_eq!(rt; (fleet.standing_count(), fleet.forward_count(2)), (3, 2));
    fleet.crash(2);
    assert_eq!(rt; (fleet.standing_count(), fleet.forward_count(2)), (2, 0));
    fleet.notice(1, 2);
    assert_eq!(rt; (fleet.next_of(1), fleet.next_of(0)), (0, 1));
}

#[test]
fn a_number_above_7_names_no_server(rt: HostRuntime) {
    let mut fleet = three_servers();
    fleet.keep(8, Row(1), Phase::Write, ServerSet::only(1));
    assert_eq!(rt; fleet.forward_count(8), 0);
    assert!(rt; !fleet.is_standing(8));
    fleet.reset(9);
    assert_eq!(rt; fleet.size(), 3);
}
