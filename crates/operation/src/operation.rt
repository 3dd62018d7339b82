// An operation, the events that can reach it, and what an event makes of it.
ghost use Rattle.operation.specs.Events.{after, first_state};
ghost use Rattle.std.specs.Prelude.{◌≡◌};

use crate::tag::Tag;
use messages::Row;

// How far an operation has come. A write is queued, then started, then answered; a read waits, then is answered.
#[derive(Clone, Copy, Debug, PartialEq, Eq)]
pub enum State {
    // No operation has taken this row yet.
    Unused,
    // A write that has not started.
    Queued,
    // A write that goes round the ring under its tag.
    Started(Tag),
    // An answered write, with the mark of its answer.
    Written { tag: Tag, mark: u32 },
    // A read that waits until its server holds a row whose tag is not below the threshold.
    Waiting { threshold: Tag },
    // An answered read: the row whose value it gave, and the mark of its answer.
    Told { row: Row, mark: u32 },
}

// One row of the journal: who asked, at which server, under which mark it began, and how far it has come.
// `given_up` stands beside the state, since an operation may be given up in three states and stays in its own.
#[derive(Clone, Copy, Debug, PartialEq, Eq)]
pub struct Operation {
    pub(crate) client: u8,
    pub(crate) server: u8,
    pub(crate) begin_mark: u32,
    pub(crate) given_up: bool,
    pub(crate) state: State,
}

// What a client asks for: to write, or to read once the server holds a row not below the threshold.
#[derive(Clone, Copy, Debug, PartialEq, Eq)]
pub enum Request {
    Write,
    Read { threshold: Tag },
}

// What can happen to an operation.
#[derive(Clone, Copy, Debug, PartialEq, Eq)]
pub enum Event {
    // A client begins at a server what it requests, under a mark.
    Begin {
        client: u8,
        server: u8,
        mark: u32,
        request: Request,
    },
    // The write gets its tag, which is not that of the first value.
    Start(Tag),
    // The answer, under a mark; a read gives the value of the row.
    Answer {
        row: Row,
        mark: u32,
    },
    // The client gives up.
    GiveUp,
}

impl Request {
    // A write is first queued, a read first waits.
    fn first_state(self) -> State
        ensures { result ≡ first_state self }
    {
        match self {
            Request::Write => State::Queued,
            Request::Read { threshold } => State::Waiting { threshold },
        }
    }
}

impl Operation {
    // A row that no operation has taken.
    pub const UNUSED: Operation = Operation {
        client: 0,
        server: 0,
        begin_mark: 0,
        given_up: false,
        state: State::Unused,
    };

    // The first value: an answered write by client 0 with the first tag.
    pub const FIRST: Operation = Operation {
        client: 0,
        server: 0,
        begin_mark: 0,
        given_up: false,
        state: State::Written {
            tag: Tag::FIRST,
            mark: 0,
        },
    };

    // What the event makes of the operation, by its state and the event together; an event that does not fit changes nothing.
    pub fn after(self, event: Event) -> Operation
        ensures { result ≡ after self event }
    {
        match (self.state, event) {
            (
                State::Unused,
                Event::Begin {
                    client,
                    server,
                    mark,
                    request,
                },
            ) => {
                Operation {
                    client,
                    server,
                    begin_mark: mark,
                    given_up: false,
                    state: request.first_state(),
                }
            }
            (State::Queued, Event::Start(tag)) if tag.number() > 0 => Operation {
                state: State::Started(tag),
                ..self
            },
            (State::Started(tag), Event::Answer { mark, .. }) if !self.given_up => Operation {
                state: State::Written { tag, mark },
                ..self
            },
            (State::Waiting { .. }, Event::Answer { row, mark }) if !self.given_up => Operation {
                state: State::Told { row, mark },
                ..self
            },
            (State::Queued | State::Started(_) | State::Waiting { .. }, Event::GiveUp) =>
                Operation {
                    given_up: true,
                    ..self
                },
            _ => self,
        }
    }
}
