// Rows are taken up to the last, and answers take the next marks in row order.
use journal::Journal;
use messages::Row;
use operation::{Request, Tag};

// A read with this threshold.
fn read(threshold: Tag) -> Request {
    Request::Read { threshold }
}

#[test]
fn the_255th_operation_takes_the_last_row(rt: HostRuntime) {
    let mut journal = Journal::empty();
    journal.reset();
    let mut last = None;
    for _ in 0..255 {
        assert!(rt; !journal.is_full());
        last = journal.begin(2, 0, Request::Write);
    }
    assert_eq!(rt; last, Some(Row(255)), "the 255th");
    assert!(rt; journal.is_full());
    assert_eq!(rt; journal.begin(2, 0, Request::Write), None, "the 256th");
    assert_eq!(rt; journal.used(), 256);
}

#[test]
fn a_journal_never_made_begins_at_row_0(rt: HostRuntime) {
    let mut journal = Journal::empty();
    assert!(rt; !journal.is_used(Row(0)));
    assert_eq!(rt; journal.begin(0, 0, Request::Write), Some(Row(0)));
}

#[test]
fn answers_take_marks_in_row_order(rt: HostRuntime) {
    let mut journal = Journal::empty();
    journal.reset();
    assert_eq!(rt; journal.begin(0, 0, Request::Write), Some(Row(1)));
    assert_eq!(rt; journal.begin(1, 0, read(Tag::new(1, 0))), Some(Row(2)));
    assert_eq!(rt; journal.begin(2, 0, read(Tag::new(1, 1))), Some(Row(3)));
    assert_eq!(rt; journal.begin(3, 0, read(Tag::FIRST)), Some(Row(4)));
    assert_eq!(rt; journal.begin(4, 1, read(Tag::FIRST)), Some(Row(5)));
    assert!(rt; journal.is_stray(Row(1)));
    assert_eq!(rt; journal.queued_count(0), 1);
    journal.start(Row(1), 0, Row(0));
    let tag = journal.tag_of(Row(1));
    assert_eq!(rt; tag, Tag::new(1, 0));
    assert!(rt; !journal.is_stray(Row(1)));
    assert_eq!(rt; journal.first_queued(0), None);
    journal.answer_reads(0, tag, Row(1));
    assert_eq!(rt;
        (
            journal.answer_mark(Row(2)),
            journal.answer_mark(Row(3)),
            journal.answer_mark(Row(4)),
        ),
        (6, 0, 7)
    );
    assert_eq!(rt; journal.answer_mark(Row(5)), 0, "at another server");
    assert_eq!(rt; journal.named_row(Row(2)), Row(1));
    journal.answer_writes(0, Tag::FIRST);
    assert!(rt; !journal.is_answered(Row(1)), "not yet returned");
    journal.answer_writes(0, tag);
    assert_eq!(rt; journal.answer_mark(Row(1)), 8);
    assert_eq!(rt; journal.named_row(Row(1)), Row(1));
    assert_eq!(rt; journal.open_count(), 2);
}

#[test]
fn a_given_up_operation_is_never_answered(rt: HostRuntime) {
    let mut journal = Journal::empty();
    journal.reset();
    assert_eq!(rt; journal.begin(0, 0, Request::Write), Some(Row(1)));
    assert_eq!(rt; journal.begin(1, 0, read(Tag::FIRST)), Some(Row(2)));
    assert_eq!(rt; journal.open_row(0), Some(Row(1)));
    journal.give_up(Row(1));
    journal.give_up(Row(2));
    assert_eq!(rt; journal.open_row(0), None);
    assert_eq!(rt; journal.first_queued(0), Some(Row(1)), "it still starts");
    journal.start(Row(1), 0, Row(0));
    let tag = journal.tag_of(Row(1));
    journal.answer_writes(0, tag);
    journal.answer_reads(0, tag, Row(1));
    journal.answer_read(Row(2), Row(1));
    assert!(rt; !journal.is_answered(Row(1)));
    assert!(rt; !journal.is_answered(Row(2)));
}
