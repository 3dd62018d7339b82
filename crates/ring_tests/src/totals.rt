// How much is under way: messages and entries of standing servers, and queued writes.
use fleet::Fleet;
use journal::Journal;
use line_wiring::LineWiring;
use messages::{Phase, Row};
use questions::amounts;
use requests::{make, write};
use sending::Memory;
use servers::ServerSet;
use wiring::Wiring;

#[test]
fn amounts_are_those_of_standing_servers(rt: HostRuntime) {
    let mut memory = Memory {
        journal: Journal::empty(),
        fleet: Fleet::empty(),
    };
    let mut wiring = LineWiring::new();
    let mut values = [0; 256];
    assert_eq!(rt; amounts(&memory, &wiring), (0, 0, 0), "never made");
    assert!(rt; make(&mut memory, &mut values, 3, 0).is_ok());
    assert!(rt; write(&mut memory.journal, &memory.fleet, &mut values, 0, 1, 5).is_ok());
    wiring.put(1, 1, 1, ServerSet::only(0));
    wiring.put(2, 1, 2, ServerSet::only(0));
    memory
        .fleet
        .keep(1, Row(1), Phase::Write, ServerSet::only(2));
    assert_eq!(rt; amounts(&memory, &wiring), (3, 3, 1));
    memory.fleet.crash(1);
    assert_eq!(rt;
        amounts(&memory, &wiring),
        (2, 1, 0),
        "server 1 counts no more"
    );
}
