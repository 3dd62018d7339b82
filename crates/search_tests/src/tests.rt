// The place of the least key, the first among equals, none where there is no key.
use crate::{Load, Tag};
use messages::{Phase, Place, Row};
use search::least;

fn tag(number: u32, server: u8) -> Tag {
    Tag { number, server }
}

#[test]
fn the_least_tag(rt: HostRuntime) {
    let none: [Tag; 0] = [];
    assert_eq!(rt; least(&none), None);
    assert_eq!(rt; least(&[tag(9, 9)]), Some(0));
    assert_eq!(rt; least(&[tag(2, 0), tag(1, 7), tag(1, 6)]), Some(2));
    assert_eq!(rt; least(&[tag(1, 1), tag(1, 2), tag(1, 1)]), Some(0));
    assert_eq!(rt;
        least(&[tag(3, 0), tag(1, 5), tag(1, 5), tag(2, 0)]),
        Some(1)
    );
}

fn load(count: u16, server: usize) -> Load {
    Load { count, server }
}

#[test]
fn the_least_load(rt: HostRuntime) {
    assert_eq!(rt; least(&[load(512, 0), load(3, 1), load(3, 2)]), Some(1));
    assert_eq!(rt; least(&[load(3, 2), load(3, 1), load(512, 0)]), Some(1));
    assert_eq!(rt; least(&[load(0, 7), load(1, 0)]), Some(0));
}

fn place(row: u8, phase: Phase) -> Place {
    Place {
        row: Row(row),
        phase,
    }
}

#[test]
fn the_least_place(rt: HostRuntime) {
    let write = place(4, Phase::Write);
    let pre_write = place(4, Phase::PreWrite);
    assert_eq!(rt;
        least(&[write, pre_write, place(5, Phase::PreWrite)]),
        Some(1)
    );
    assert_eq!(rt; least(&[pre_write, write, place(3, Phase::Write)]), Some(2));
    assert_eq!(rt; least(&[write, write]), Some(0));
}
