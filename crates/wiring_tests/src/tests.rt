// What every wiring does, tried on both, and which message each of them hands out.
// What both do is one generic function, and a test of each, since a test has no type parameter.
use crate::took;
use line_wiring::LineWiring;
use messages::{NoPlace, Phase, ROWS};
use pick_wiring::PickWiring;
use servers::{SERVERS, ServerSet};
use std::process::Abort;
use std::test::Fail;
use wiring::Wiring;

// The phases by their numbers, as put takes them.
const PRE_WRITE: u8 = 1;

const WRITE: u8 = 2;

const EVERY_PLACE: usize = 512;

// One row and phase put twice is one message with both masks.
fn masks_are_joined<W: Wiring + Drop>(rt: &impl Abort) {
    let mut w = W::new();
    w.put(3, 4, PRE_WRITE, ServerSet::only(0));
    w.put(3, 4, PRE_WRITE, ServerSet::only(1));
    assert_eq!(rt; w.count(3), 1);
    assert!(rt; took(w.take(3), 4, Phase::PreWrite, ServerSet::only(0).with(1)));
    assert_eq!(rt; w.count(3), 0);
    assert!(rt; w.take(3).is_none());
}

#[test]
fn a_line_joins_masks(rt: HostRuntime) {
    masks_are_joined::<LineWiring>(&rt);
}

#[test]
fn a_pick_joins_masks(rt: HostRuntime) {
    masks_are_joined::<PickWiring>(&rt);
}

// Numbers that name no place, and an empty mask, put nothing; above 7 nothing waits and nothing is cleared.
fn numbers_out_of_range<W: Wiring + Drop>(rt: &impl Abort) {
    let mut w = W::new();
    let one = ServerSet::only(2);
    w.put(SERVERS, 0, PRE_WRITE, one);
    w.put(0, ROWS, PRE_WRITE, one);
    w.put(0, 0, 0, one);
    w.put(0, 0, 3, one);
    w.put(0, 0, PRE_WRITE, ServerSet::empty());
    assert_eq!(rt; w.count(0), 0);
    assert_eq!(rt; w.count(SERVERS), 0);
    assert!(rt; w.take(SERVERS).is_none());
    w.put(0, ROWS - 1, WRITE, one);
    w.clear(SERVERS);
    assert!(rt; took(w.take(0), 255, Phase::Write, one));
    assert!(rt; w.take(0).is_none());
}

#[test]
fn a_line_takes_numbers_in_range(rt: HostRuntime) {
    numbers_out_of_range::<LineWiring>(&rt);
}

#[test]
fn a_pick_takes_numbers_in_range(rt: HostRuntime) {
    numbers_out_of_range::<PickWiring>(&rt);
}

// Clearing one server leaves the others, and what comes later waits.
fn clear_empties_one_server<W: Wiring + Drop>(rt: &impl Abort) {
    let mut w = W::new();
    let one = ServerSet::only(7);
    w.put(0, 1, PRE_WRITE, one);
    w.put(0, 2, WRITE, one);
    w.put(1, 1, PRE_WRITE, one);
    w.clear(0);
    assert_eq!(rt; w.count(0), 0);
    assert_eq!(rt; w.count(1), 1);
    w.put(0, 1, PRE_WRITE, one);
    assert!(rt; took(w.take(0), 1, Phase::PreWrite, one));
    assert!(rt; took(w.take(1), 1, Phase::PreWrite, one));
}

#[test]
fn a_line_is_cleared(rt: HostRuntime) {
    clear_empties_one_server::<LineWiring>(&rt);
}

#[test]
fn a_pick_is_cleared(rt: HostRuntime) {
    clear_empties_one_server::<PickWiring>(&rt);
}

// A message for each row and phase, the last rows first.
fn fill<W: Wiring>(w: &mut W) {
    for row in (0..ROWS).rev() {
        w.put(5, row, PRE_WRITE, ServerSet::only(1));
        w.put(5, row, WRITE, ServerSet::only(2));
    }
}

// Each place holds one message, and there is room for all of them, again after they were taken.
fn every_place_is_used<W: Wiring + Drop>(rt: &impl Abort) {
    let mut w = W::new();
    for _ in 0..3 {
        fill(&mut w);
        fill(&mut w);
        assert_eq!(rt; w.count(5), EVERY_PLACE);
        for left in (0..EVERY_PLACE).rev() {
            assert!(rt; w.take(5).is_some());
            assert_eq!(rt; w.count(5), left);
        }
        assert!(rt; w.take(5).is_none());
    }
}

#[test]
fn a_line_has_every_place(rt: HostRuntime) {
    every_place_is_used::<LineWiring>(&rt);
}

#[test]
fn a_pick_has_every_place(rt: HostRuntime) {
    every_place_is_used::<PickWiring>(&rt);
}

// A joined message keeps its place in the line.
#[test]
fn a_line_hands_out_by_arrival(rt: HostRuntime) {
    let mut w = LineWiring::new();
    w.put(6, 9, WRITE, ServerSet::only(0));
    w.put(6, 3, PRE_WRITE, ServerSet::only(1));
    w.put(6, 9, PRE_WRITE, ServerSet::only(2));
    w.put(6, 9, WRITE, ServerSet::only(3));
    w.pick(2);
    assert!(rt; took(w.take(6), 9, Phase::Write, ServerSet::only(0).with(3)));
    w.put(6, 1, PRE_WRITE, ServerSet::only(4));
    assert!(rt; took(w.take(6), 3, Phase::PreWrite, ServerSet::only(1)));
    assert!(rt; took(w.take(6), 9, Phase::PreWrite, ServerSet::only(2)));
    assert!(rt; took(w.take(6), 1, Phase::PreWrite, ServerSet::only(4)));
}

// A line that was half taken goes on round the end of its buffer.
#[test]
fn a_line_goes_round(rt: HostRuntime) {
    let mut w = LineWiring::new();
    for row in 0..ROWS {
        w.put(0, row, PRE_WRITE, ServerSet::only(1));
    }
    for row in 0..=255u8 {
        assert!(rt; took(w.take(0), row, Phase::PreWrite, ServerSet::only(1)));
        w.put(0, row as usize, WRITE, ServerSet::only(2));
        w.put(0, row as usize, PRE_WRITE, ServerSet::only(3));
    }
    assert_eq!(rt; w.count(0), EVERY_PLACE);
    for row in 0..=255u8 {
        assert!(rt; took(w.take(0), row, Phase::Write, ServerSet::only(2)));
        assert!(rt; took(w.take(0), row, Phase::PreWrite, ServerSet::only(3)));
    }
    assert!(rt; w.take(0).is_none());
}

// Three wait: a write of row 1, then a pre-write and a write of row 2.
fn three_wait() -> PickWiring {
    let mut w = PickWiring::new();
    w.put(4, 2, WRITE, ServerSet::only(0));
    w.put(4, 2, PRE_WRITE, ServerSet::only(1));
    w.put(4, 1, WRITE, ServerSet::only(2));
    w
}

// By row, then phase, number 5 mod 3, then 5 mod 2, then 5 mod 1.
#[test]
fn pick_5_of_three_is_number_2(rt: HostRuntime) {
    let mut w = three_wait();
    w.pick(5);
    assert!(rt; took(w.take(4), 2, Phase::Write, ServerSet::only(0)));
    assert!(rt; took(w.take(4), 2, Phase::PreWrite, ServerSet::only(1)));
    assert!(rt; took(w.take(4), 1, Phase::Write, ServerSet::only(2)));
    assert!(rt; w.take(4).is_none());
}

// The pick number is 0 at first, and stays until it is set.
#[test]
fn the_first_pick_is_0(rt: HostRuntime) {
    let mut w = three_wait();
    assert!(rt; took(w.take(4), 1, Phase::Write, ServerSet::only(2)));
    w.pick(1);
    w.put(4, 0, PRE_WRITE, ServerSet::only(3));
    assert!(rt; took(w.take(4), 2, Phase::PreWrite, ServerSet::only(1)));
    w.clear(3);
    assert!(rt; took(w.take(4), 2, Phase::Write, ServerSet::only(0)));
}

// Taken one by one with the pick number 0, all messages come by row, then phase.
#[test]
fn a_pick_of_0_goes_through_all(rt: HostRuntime) {
    let mut w = PickWiring::new();
    fill(&mut w);
    for row in 0..=255u8 {
        assert!(rt; took(w.take(5), row, Phase::PreWrite, ServerSet::only(1)));
        assert!(rt; took(w.take(5), row, Phase::Write, ServerSet::only(2)));
    }
    assert!(rt; w.take(5).is_none());
}

// Numbers that name no row or no phase say which they are.
#[test]
fn numbers_of_no_place_print(rt: HostRuntime) -> Result<(), Fail> {
    let texts = [
        NoPlace::Row(256).to_string(rt.alloc())?,
        NoPlace::Phase(3).to_string(rt.alloc())?,
    ];
    assert_eq!(rt; texts[0].as_str(), "row 256 is above 255");
    assert_eq!(rt; texts[1].as_str(), "phase 3 is neither 1 nor 2");
    Ok(())
}
