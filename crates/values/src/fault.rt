// What can be wrong with bytes that are to be a value, and with a value that is to be written.
ghost use Rattle.values.specs.Kinds.{value_fault_number};
ghost use Rattle.values.specs.Texts.{unwritten_text, value_fault_text};
ghost use Rattle.std.specs.Prelude.{◌≡◌, Some};

use std::error::Error;
use std::fmt;

// What is wrong with the bytes at the front of which a value is to stand.
#[derive(Clone, Copy, PartialEq, Eq, Debug)]
pub enum ValueFault {
    // There are fewer bytes than the value takes.
    Cut,
    // A byte is none that the kind allows at its place.
    NotAllowed,
}

impl ValueFault {
    // The number by which a schedule's reader tells the fault. No number is read as a fault, so this is no conversion.
    pub fn number(self) -> u8
        ensures { result ≡ value_fault_number self }
    {
        match self {
            ValueFault::Cut => 26,
            ValueFault::NotAllowed => 27,
        }
    }
}

impl fmt::Display for ValueFault {
    ghost output = { λ fault. Some (value_fault_text fault) };

    fn fmt<W: fmt::Write>(&self, f: &mut fmt::Formatter<W>) -> fmt::Result {
        f.write_str(match self {
            ValueFault::Cut => "the value is cut short",
            ValueFault::NotAllowed => "the value has a byte that its kind does not allow",
        })
    }
}

impl Error for ValueFault {}

// Why a value is not written.
#[derive(Clone, Copy, PartialEq, Eq, Debug)]
pub enum Unwritten {
    // A byte of it is none that the kind allows at its place.
    NotAllowed,
    // The buffer has fewer bytes than the value takes.
    Short,
}

impl fmt::Display for Unwritten {
    ghost output = { λ reason. Some (unwritten_text reason) };

    fn fmt<W: fmt::Write>(&self, f: &mut fmt::Formatter<W>) -> fmt::Result {
        f.write_str(match self {
            Unwritten::NotAllowed => "the value has a byte that its kind does not allow",
            Unwritten::Short => "there is no room for the value",
        })
    }
}

impl Error for Unwritten {}
