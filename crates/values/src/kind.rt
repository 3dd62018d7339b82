// The kinds of value that a schedule can name in its header.
ghost use Rattle.values.specs.Kinds.{checked, kind_number, kind_read, value_length};
ghost use Rattle.values.specs.Texts.{unknown_kind_text};
ghost use Rattle.std.specs.Prelude.{◌≡◌, Some};

use crate::fault::ValueFault;
use crate::level::Level;
use crate::mark::Mark;
use crate::value::Value;
use std::error::Error;
use std::fmt;

// A kind of value.
#[derive(Clone, Copy, PartialEq, Eq, Debug)]
pub enum Kind {
    Level,
    Mark,
}

// A number that no kind has. Each conversion has an error of its own, which prints in its own words.
#[derive(Clone, Copy, PartialEq, Eq, Debug)]
pub struct UnknownKind(pub u32);

// The number of the kind in a schedule's header.
impl From<Kind> for u32 {
    ghost from_gives = { λ kind number. number ≡ kind_number kind };

    fn from(kind: Kind) -> u32 {
        match kind {
            Kind::Level => Level::NUMBER,
            Kind::Mark => Mark::NUMBER,
        }
    }
}

// The kind with this number.
impl TryFrom<u32> for Kind {
    type Error = UnknownKind;

    ghost try_from_gives = { λ number read. read ≡ kind_read number };

    fn try_from(number: u32) -> Result<Kind, UnknownKind> {
        match number {
            Level::NUMBER => Ok(Kind::Level),
            Mark::NUMBER => Ok(Kind::Mark),
            _ => Err(UnknownKind(number)),
        }
    }
}

impl fmt::Display for UnknownKind {
    ghost output = { λ unknown. Some (unknown_kind_text unknown) };

    fn fmt<W: fmt::Write>(&self, f: &mut fmt::Formatter<W>) -> fmt::Result {
        write!(f, "no kind of value has the number {}", self.0)
    }
}

impl Error for UnknownKind {}

impl Kind {
    // How many bytes a value of the kind takes.
    pub fn byte_len(self) -> usize
        ensures { result ≡ value_length self }
    {
        match self {
            Kind::Level => Level::LEN,
            Kind::Mark => Mark::LEN,
        }
    }

    // Tells what is wrong with the value at the front of these bytes, if anything is.
    pub fn check(self, bytes: &[u8]) -> Result<(), ValueFault>
        ensures { result ≡ checked self bytes.now }
    {
        match self {
            Kind::Level => {
                Level::read(bytes)?;
            }
            Kind::Mark => {
                Mark::read(bytes)?;
            }
        }
        Ok(())
    }
}
