// What each event makes of an operation in each state, as a table.
use messages::Row;
use operation::{Event, Operation, Request, Tag};
use std::process::Abort;

// What shows of an operation: whether it is a write, open, answered, and the number of its tag.
type Shown = (bool, bool, bool, u32);

const NOTHING: Shown = (false, false, false, 0);

const QUEUED: Shown = (true, true, false, 0);

const QUEUED_GIVEN_UP: Shown = (true, false, false, 0);

const STARTED: Shown = (true, true, false, 7);

const STARTED_GIVEN_UP: Shown = (true, false, false, 7);

const WRITTEN: Shown = (true, false, true, 7);

const WAITING: Shown = (false, true, false, 0);

const TOLD: Shown = (false, false, true, 0);

// What shows of this operation.
fn shown(operation: Operation) -> Shown {
    (
        operation.is_write(),
        operation.is_open(),
        operation.is_answered(),
        operation.tag().number(),
    )
}

// Client 3 asks for this at server 1, under mark 5.
fn begin(request: Request) -> Event {
    Event::Begin {
        client: 3,
        server: 1,
        mark: 5,
        request,
    }
}

// Begin, start, answer and give up leave these behind, in this order.
fn check_row(
    rt: &impl Abort,
    operation: Operation,
    begun: Shown,
    started: Shown,
    answered: Shown,
    given_up: Shown,
) {
    assert_eq!(rt;
        shown(operation.after(begin(Request::Write))),
        begun,
        "begin"
    );
    assert_eq!(rt;
        shown(operation.after(Event::Start(Tag::new(7, 1)))),
        started,
        "start"
    );
    assert_eq!(rt;
        shown(operation.after(Event::Answer {
            row: Row(4),
            mark: 9,
        })),
        answered,
        "answer"
    );
    assert_eq!(rt; shown(operation.after(Event::GiveUp)), given_up, "give up");
}

#[test]
fn each_event_in_each_state(rt: HostRuntime) {
    let answer = Event::Answer {
        row: Row(4),
        mark: 9,
    };
    let unused = Operation::UNUSED;
    let queued = unused.after(begin(Request::Write));
    let started = queued.after(Event::Start(Tag::new(7, 1)));
    let waiting = unused.after(begin(Request::Read {
        threshold: Tag::new(2, 0),
    }));
    check_row(&rt, unused, QUEUED, NOTHING, NOTHING, NOTHING);
    check_row(&rt, queued, QUEUED, STARTED, QUEUED, QUEUED_GIVEN_UP);
    check_row(&rt, started, STARTED, STARTED, WRITTEN, STARTED_GIVEN_UP);
    check_row(
        &rt,
        started.after(answer),
        WRITTEN,
        WRITTEN,
        WRITTEN,
        WRITTEN,
    );
    check_row(&rt, waiting, WAITING, WAITING, TOLD, NOTHING);
    check_row(&rt, waiting.after(answer), TOLD, TOLD, TOLD, TOLD);
}

#[test]
fn a_given_up_write_starts_and_is_never_answered(rt: HostRuntime) {
    let queued = Operation::UNUSED
        .after(begin(Request::Write))
        .after(Event::GiveUp);
    check_row(
        &rt,
        queued,
        QUEUED_GIVEN_UP,
        STARTED_GIVEN_UP,
        QUEUED_GIVEN_UP,
        QUEUED_GIVEN_UP,
    );
    let started = queued.after(Event::Start(Tag::new(7, 1)));
    check_row(
        &rt,
        started,
        STARTED_GIVEN_UP,
        STARTED_GIVEN_UP,
        STARTED_GIVEN_UP,
        STARTED_GIVEN_UP,
    );
}

#[test]
fn no_write_starts_under_the_first_tag(rt: HostRuntime) {
    let queued = Operation::UNUSED.after(begin(Request::Write));
    assert_eq!(rt; shown(queued.after(Event::Start(Tag::FIRST))), QUEUED);
}

#[test]
fn tags_compare_by_number_then_server(rt: HostRuntime) {
    assert!(rt; Tag::new(1, 7).is_below(Tag::new(2, 0)));
    assert!(rt; Tag::new(2, 1).is_below(Tag::new(2, 3)));
    assert!(rt; !Tag::new(2, 3).is_below(Tag::new(2, 3)));
    assert!(rt; Tag::new(2, 3).is_up_to(Tag::new(2, 3)));
}
