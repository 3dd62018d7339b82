// What can be wrong with a number that is read, and why a writer refuses.
ghost use Rattle.numbers.specs.Numbers.{number_fault_number, number_fault_place, refusal_number};
ghost use Rattle.numbers.specs.Texts.{number_fault_text, refusal_text};
ghost use Rattle.std.specs.Prelude.{◌≡◌, Some};

use std::error::Error;
use std::fmt;

// What is wrong with a number, and the place of its first byte.
#[derive(Clone, Copy, PartialEq, Eq, Debug)]
pub enum NumberFault {
    // The input ends before the number does.
    Cut { place: usize },
    // The third byte has the top bit.
    TooLong { place: usize },
    // The last of several bytes is zero.
    NotShortest { place: usize },
}

impl NumberFault {
    // The fault's number. No number is read as a fault, so this is no conversion.
    pub fn number(self) -> u8
        ensures { result ≡ number_fault_number self }
    {
        match self {
            NumberFault::Cut { .. } => 21,
            NumberFault::TooLong { .. } => 22,
            NumberFault::NotShortest { .. } => 23,
        }
    }

    // The place of the first byte of the number.
    pub fn place(self) -> usize
        ensures { result ≡ number_fault_place self }
    {
        match self {
            NumberFault::Cut { place }
            | NumberFault::TooLong { place }
            | NumberFault::NotShortest { place } => place,
        }
    }
}

impl fmt::Display for NumberFault {
    ghost output = { λ fault. Some (number_fault_text fault) };

    fn fmt<W: fmt::Write>(&self, f: &mut fmt::Formatter<W>) -> fmt::Result {
        match self {
            NumberFault::Cut { place } => write!(f, "the number at {place} is cut short"),
            NumberFault::TooLong { place } => write!(f, "the number at {place} is too long"),
            NumberFault::NotShortest { place } => {
                write!(f, "the number at {place} could be shorter")
            }
        }
    }
}

impl Error for NumberFault {}

// Why nothing was written.
#[derive(Clone, Copy, PartialEq, Eq, Debug)]
pub enum WriteRefusal {
    // What was to be written would not read back.
    NotWritable,
    // The buffer is too short.
    NoRoom,
}

impl WriteRefusal {
    // The refusal's number. No number is read as a refusal, so this is no conversion.
    pub fn number(self) -> u8
        ensures { result ≡ refusal_number self }
    {
        match self {
            WriteRefusal::NotWritable => 29,
            WriteRefusal::NoRoom => 28,
        }
    }
}

impl fmt::Display for WriteRefusal {
    ghost output = { λ refusal. Some (refusal_text refusal) };

    fn fmt<W: fmt::Write>(&self, f: &mut fmt::Formatter<W>) -> fmt::Result {
        f.write_str(match self {
            WriteRefusal::NotWritable => "it would not read back",
            WriteRefusal::NoRoom => "there is no room for it",
        })
    }
}

impl Error for WriteRefusal {}
