// The header of a schedule.
ghost use Rattle.schedule.specs.Headers.{is_line, wiring_number, wiring_of};
ghost use Rattle.schedule.specs.Texts.{unknown_wiring_text};
ghost use Rattle.std.specs.Prelude.{◌≡◌, Some, ok_or};

use std::error::Error;
use std::fmt;
use values::kind::Kind;

// The least and the largest number of servers of a ring.
pub const LEAST_SERVERS: u32 = 2;

pub const MOST_SERVERS: u32 = 8;

// How messages wait between servers.
#[derive(Clone, Copy, PartialEq, Eq, Debug)]
pub enum WiringKind {
    // They are handed out by order of arrival.
    Line,
    // A pick number says which one is handed out.
    Pick,
}

// A number that names no wiring. Each conversion has an error of its own, which prints in its own words.
#[derive(Clone, Copy, PartialEq, Eq, Debug)]
pub struct UnknownWiring(pub u32);

// The number of the wiring in a header.
impl From<WiringKind> for u32 {
    ghost from_gives = { λ wiring number. number ≡ wiring_number wiring };

    fn from(wiring: WiringKind) -> u32 {
        match wiring {
            WiringKind::Line => 1,
            WiringKind::Pick => 2,
        }
    }
}

// The wiring with a number, if there is one.
impl TryFrom<u32> for WiringKind {
    type Error = UnknownWiring;

    ghost try_from_gives = { λ number read. read ≡ ok_or (wiring_of number) (record { 0 = number }) };

    fn try_from(number: u32) -> Result<WiringKind, UnknownWiring> {
        match number {
            1 => Ok(WiringKind::Line),
            2 => Ok(WiringKind::Pick),
            _ => Err(UnknownWiring(number)),
        }
    }
}

impl fmt::Display for UnknownWiring {
    ghost output = { λ unknown. Some (unknown_wiring_text unknown) };

    fn fmt<W: fmt::Write>(&self, f: &mut fmt::Formatter<W>) -> fmt::Result {
        write!(f, "no wiring has the number {}", self.0)
    }
}

impl Error for UnknownWiring {}

impl WiringKind {
    // Whether this is the line wiring.
    pub fn is_line(self) -> bool
        ensures { result ≡ is_line self }
    {
        self == WiringKind::Line
    }
}

// What the bytes of a step depend on: the kind of its value, and the wiring, which says whether picks have a code.
#[derive(Clone, Copy, PartialEq, Eq, Debug)]
pub struct Format {
    pub kind: Kind,
    pub wiring: WiringKind,
}

// What a schedule says of its ring. The first value is a part of the input.
#[derive(Clone, Copy)]
pub struct Header<'a> {
    pub servers: u32,
    pub kind: Kind,
    pub wiring: WiringKind,
    pub first: &'a [u8],
}

impl Header<'_> {
    // What the header says of the steps behind it.
    pub fn format(self) -> Format
        ensures { (result.kind ≡ self.entry.kind) × (result.wiring ≡ self.entry.wiring) }
    {
        Format {
            kind: self.kind,
            wiring: self.wiring,
        }
    }
}
