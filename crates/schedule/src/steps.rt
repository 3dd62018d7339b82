// The steps of a schedule and their codes.
ghost use Rattle.schedule.specs.Steps.{code_letter, code_number, code_of, code_under, step_code};
ghost use Rattle.schedule.specs.Texts.{unknown_code_text};
ghost use Rattle.std.specs.Prelude.{◌≡◌, Some, ok_or};

use crate::headers::WiringKind;
use std::error::Error;
use std::fmt;

// What a step does, as its first byte says.
#[derive(Clone, Copy, PartialEq, Eq, Debug)]
pub enum Code {
    Write,
    Read,
    GiveUp,
    Turn,
    Deliver,
    Crash,
    Notice,
    Pick,
}

// A byte that no step begins with. Each conversion has an error of its own, which prints in its own words.
#[derive(Clone, Copy, PartialEq, Eq, Debug)]
pub struct UnknownCode(pub u8);

// The byte that a step of a code begins with.
impl From<Code> for u8 {
    ghost from_gives = { λ code byte. byte ≡ code_number code };

    fn from(code: Code) -> u8 {
        match code {
            Code::Write => 1,
            Code::Read => 2,
            Code::GiveUp => 3,
            Code::Turn => 4,
            Code::Deliver => 5,
            Code::Crash => 6,
            Code::Notice => 7,
            Code::Pick => 8,
        }
    }
}

// The code that a byte stands for, if it stands for one.
impl TryFrom<u8> for Code {
    type Error = UnknownCode;

    ghost try_from_gives = { λ byte read. read ≡ ok_or (code_of byte) (record { 0 = byte }) };

    fn try_from(byte: u8) -> Result<Code, UnknownCode> {
        match byte {
            1 => Ok(Code::Write),
            2 => Ok(Code::Read),
            3 => Ok(Code::GiveUp),
            4 => Ok(Code::Turn),
            5 => Ok(Code::Deliver),
            6 => Ok(Code::Crash),
            7 => Ok(Code::Notice),
            8 => Ok(Code::Pick),
            _ => Err(UnknownCode(byte)),
        }
    }
}

impl fmt::Display for UnknownCode {
    ghost output = { λ unknown. Some (unknown_code_text unknown) };

    fn fmt<W: fmt::Write>(&self, f: &mut fmt::Formatter<W>) -> fmt::Result {
        write!(f, "no step begins with the byte {}", self.0)
    }
}

impl Error for UnknownCode {}

impl Code {
    // The letter that names the code in print. A method, since `char::from(code)` would look like the code's number.
    pub fn letter(self) -> char
        ensures { result ≡ code_letter self }
    {
        match self {
            Code::Write => 'W',
            Code::Read => 'R',
            Code::GiveUp => 'G',
            Code::Turn => 'T',
            Code::Deliver => 'D',
            Code::Crash => 'C',
            Code::Notice => 'N',
            Code::Pick => 'P',
        }
    }

    // The code that a byte stands for under a wiring: the line wiring knows no picks.
    pub fn under(wiring: WiringKind, number: u8) -> Option<Code>
        ensures { result ≡ code_under wiring number }
    {
        if wiring.is_line() && number == u8::from(Code::Pick) {
            return None;
        }
        Code::try_from(number).ok()
    }
}

// A step of a schedule. The value of a write is a part of the input.
#[derive(Clone, Copy)]
pub enum Step<'a> {
    Write {
        client: u32,
        server: u32,
        value: &'a [u8],
    },
    Read {
        client: u32,
        server: u32,
    },
    GiveUp {
        client: u32,
    },
    Turn {
        server: u32,
    },
    Deliver {
        server: u32,
    },
    Crash {
        server: u32,
    },
    Notice {
        server: u32,
        crashed: u32,
    },
    Pick {
        pick: u32,
    },
}

impl<'a> Step<'a> {
    // The code of a step.
    pub fn code(self) -> Code
        ensures { result ≡ step_code self.entry }
    {
        match self {
            Step::Write { .. } => Code::Write,
            Step::Read { .. } => Code::Read,
            Step::GiveUp { .. } => Code::GiveUp,
            Step::Turn { .. } => Code::Turn,
            Step::Deliver { .. } => Code::Deliver,
            Step::Crash { .. } => Code::Crash,
            Step::Notice { .. } => Code::Notice,
            Step::Pick { .. } => Code::Pick,
        }
    }
}
