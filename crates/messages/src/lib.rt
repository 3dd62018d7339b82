// Messages between servers, and the places where they wait. What it means that messages wait is defined in specs/Waiting.
#![tactic(auto)]

ghost use Rattle.messages.specs.Errors.{no_place_text};
ghost use Rattle.messages.specs.Phases.{PhaseNamed, phase_number};
ghost use Rattle.messages.specs.Places.{PlaceNamed, RowNamed, place_below};
ghost use Rattle.std.specs.Prelude.{◌≡◌, Some};

use servers::ServerSet;
use std::error::Error;
use std::fmt;

// Rows are numbered from 0 to 255.
pub const ROWS: usize = 256;

// A row of the journal, 0 to 255. A row names its operation, and the value that the operation stored. Its number is its field, which says it as plainly as a conversion.
#[derive(Clone, Copy, Debug, PartialEq, Eq, PartialOrd, Ord)]
pub struct Row(pub u8);

// The two laps of a write round the ring: first it is announced, then it takes effect.
#[derive(Clone, Copy, Debug, PartialEq, Eq, PartialOrd, Ord)]
pub enum Phase {
    PreWrite = 1,
    Write = 2,
}

// Where a message waits at a server: one row and one phase. Places are ordered by row, then phase.
#[derive(Clone, Copy, Debug, PartialEq, Eq, PartialOrd, Ord)]
pub struct Place {
    pub row: Row,
    pub phase: Phase,
}

impl Place {
    // Whether it comes before the other place. It stands beside `<` for its clause, which pins the derived order by the numbers of row and phase.
    pub fn is_below(self, other: Place) -> bool
        ensures { result ≡ place_below self other }
    {
        self < other
    }
}

// A number that names no row, or no phase.
#[derive(Clone, Copy, Debug, PartialEq, Eq)]
pub enum NoPlace {
    Row(usize),
    Phase(u8),
}

// The row of a number; none of a number above 255.
impl TryFrom<usize> for Row {
    type Error = NoPlace;

    ghost try_from_gives = { RowNamed };

    fn try_from(number: usize) -> Result<Row, NoPlace> {
        u8::try_from(number)
            .map(Row)
            .map_err(|_| NoPlace::Row(number))
    }
}

// The phase of its number on the wiring; none of a number other than 1 and 2.
impl TryFrom<u8> for Phase {
    type Error = NoPlace;

    ghost try_from_gives = { PhaseNamed };

    fn try_from(number: u8) -> Result<Phase, NoPlace> {
        match number {
            1 => Ok(Phase::PreWrite),
            2 => Ok(Phase::Write),
            _ => Err(NoPlace::Phase(number)),
        }
    }
}

// The number of a phase on the wiring: 1 pre-write, 2 write.
impl From<Phase> for u8 {
    ghost from_gives = { λ phase number. number ≡ phase_number phase };

    fn from(phase: Phase) -> u8 {
        phase as u8
    }
}

// The place of a row's number and a phase's; none where one of them names none.
impl TryFrom<(usize, u8)> for Place {
    type Error = NoPlace;

    ghost try_from_gives = { λ numbers. PlaceNamed numbers.0 numbers.1 };

    fn try_from((row, phase): (usize, u8)) -> Result<Place, NoPlace> {
        Ok(Place {
            row: Row::try_from(row)?,
            phase: Phase::try_from(phase)?,
        })
    }
}

impl fmt::Display for NoPlace {
    ghost output = { λ error. Some (no_place_text error) };

    fn fmt<W: fmt::Write>(&self, f: &mut fmt::Formatter<W>) -> fmt::Result {
        match self {
            NoPlace::Row(number) => write!(f, "row {number} is above 255"),
            NoPlace::Phase(number) => write!(f, "phase {number} is neither 1 nor 2"),
        }
    }
}

impl Error for NoPlace {}

// A message: the row that it is about, its phase, and the servers that have passed it on.
#[derive(Clone, Copy, Debug, PartialEq, Eq)]
pub struct Message {
    pub row: Row,
    pub phase: Phase,
    pub mask: ServerSet,
}
