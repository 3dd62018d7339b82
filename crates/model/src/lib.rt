// The rules of a register on a ring of servers: the calls and what they tell. The rules themselves, runs and promises stand in specs/, their proofs in proofs/.
#![tactic(auto)]

ghost use Rattle.model.specs.Outcomes.{outcome, row_outcome};
ghost use Rattle.model.specs.Promises.{EveryRunHasOneOrder};
ghost use Rattle.model.specs.Refusals.{refusal_number};
ghost use Rattle.model.specs.WorkedFacts.{WorkedFacts};
ghost use Rattle.std.specs.Prelude.{◌≡◌};

use messages::Row;

// What can be asked of a shelf. Servers, clients and picks are named by number.
#[derive(Clone, Copy, Debug, PartialEq, Eq)]
pub enum Call<V> {
    // client, server, value
    Write(usize, usize, V),
    // client, server
    Read(usize, usize),
    // client
    GiveUp(usize),
    // server
    Turn(usize),
    // server
    Deliver(usize),
    // server
    Crash(usize),
    // the server that notices, the server that has crashed
    Notice(usize, usize),
    // the pick number
    Pick(usize),
}

// Why a call is refused, by number.
#[derive(Clone, Copy, Debug, PartialEq, Eq)]
pub enum Refusal {
    // the ring would not have 2 to 8 servers
    BadSize = 1,
    // clients are 0 to 15
    NoClient = 2,
    // the server is not below the number of servers
    NoServer = 3,
    // the server has crashed
    Crashed = 4,
    // the client has an open operation
    Busy = 5,
    // all rows of the journal are used
    Full = 6,
    // there are not exactly 256 value rows
    WrongRowCount = 7,
    // the client has no open operation
    NothingOpen = 8,
    // nothing waits to be forwarded or started
    NothingToSend = 9,
    // no message waits for the server
    NoMessage = 10,
    // the message names no started write
    Stray = 11,
    // the server is the last that stands
    LastStanding = 12,
    // the server that should have crashed stands
    Stands = 13,
    // the crash was noticed already
    NoticedAlready = 14,
    // the row is not used
    NotUsed = 15,
    // the operation is not answered
    NotAnswered = 16,
}

impl Refusal {
    // Its number, 1 to 16. A method and no conversion: the number is a property, and no second form of the refusal.
    pub fn number(self) -> u8
        ensures { result ≡ refusal_number self }
    {
        self as u8
    }
}

// What a call tells. Accepted, write and read give their row, other calls nothing.
// An enum of its own and no Result of an Option, since the rules name these three cases.
#[derive(Clone, Copy, Debug, PartialEq, Eq)]
pub enum Outcome {
    Row(usize),
    Done,
    Refused(Refusal),
}

impl From<Result<(), Refusal>> for Outcome {
    ghost from_gives = { λ given told. told ≡ outcome given };

    // What a call tells that gives nothing.
    fn from(given: Result<(), Refusal>) -> Outcome {
        match given {
            Ok(()) => Outcome::Done,
            Err(reason) => Outcome::Refused(reason),
        }
    }
}

impl From<Result<Row, Refusal>> for Outcome {
    ghost from_gives = { λ given told. told ≡ row_outcome given };

    // What a call tells that gives its row.
    fn from(given: Result<Row, Refusal>) -> Outcome {
        match given {
            Ok(row) => Outcome::Row(usize::from(row.0)),
            Err(reason) => Outcome::Refused(reason),
        }
    }
}

// Every run of a shelf, over values of any kind V, has one order.
pub fn every_run_has_one_order<V>()
    ensures { EveryRunHasOneOrder V }
{}

// The rules give in small cases what was worked out by hand.
pub fn worked_facts_hold()
    ensures { WorkedFacts }
{}
