// What can be wrong with a schedule that is read: layer, number, place and step of each fault.
ghost use Rattle.schedule.specs.Faults.{fault_layer, fault_number, fault_place, fault_step, layer_letter, numbered, step_fault_layer, step_fault_number, step_fault_place};
ghost use Rattle.schedule.specs.Texts.{run_fault_text, step_fault_text};
ghost use Rattle.schedule.specs.declared.faults.RunFault.TheVariants.{Step};
ghost use Rattle.schedule.specs.declared.faults.StepFault.TheVariants.{Number, Value};
ghost use Rattle.std.specs.Prelude.{◌≡◌, Some};

use numbers::faults::NumberFault;
use std::error::Error;
use std::fmt;
use values::fault::ValueFault;

// The layer that found a fault.
#[derive(Clone, Copy, PartialEq, Eq, Debug)]
pub enum Layer {
    Number,
    Schedule,
    Value,
}

impl Layer {
    // The letter that names the layer in print. A char and no `Display` of its own, since callers also compare it; it prints as it is.
    pub fn letter(self) -> char
        ensures { result ≡ layer_letter self }
    {
        match self {
            Layer::Number => 'N',
            Layer::Schedule => 'S',
            Layer::Value => 'V',
        }
    }
}

// What is wrong with a value, and the place of its first byte.
#[derive(Clone, Copy, PartialEq, Eq, Debug)]
pub struct BadValue {
    pub fault: ValueFault,
    pub place: usize,
}

// What is wrong with the header or a step.
#[derive(Clone, Copy, PartialEq, Eq, Debug)]
pub enum StepFault {
    // One of its numbers is faulty.
    Number(NumberFault),
    // No step begins with this byte under the header's wiring.
    UnknownCode { place: usize },
    // A number of the header is well written and means nothing.
    OutOfRange { place: usize },
    // Its value is faulty.
    Value(BadValue),
}

impl From<NumberFault> for StepFault {
    ghost from_gives = { λ f r. r ≡ Number f };

    fn from(number: NumberFault) -> StepFault {
        StepFault::Number(number)
    }
}

impl From<BadValue> for StepFault {
    ghost from_gives = { λ f r. r ≡ Value f };

    fn from(value: BadValue) -> StepFault {
        StepFault::Value(value)
    }
}

// `number` and `place` tell something of a fault and convert nothing: no fault can be had back from them.
impl StepFault {
    // The layer that found the fault.
    pub fn layer(self) -> Layer
        ensures { result ≡ step_fault_layer self }
    {
        match self {
            StepFault::Number(_) => Layer::Number,
            StepFault::UnknownCode { .. } | StepFault::OutOfRange { .. } => Layer::Schedule,
            StepFault::Value(_) => Layer::Value,
        }
    }

    // The fault's number.
    pub fn number(self) -> u8
        ensures { result ≡ step_fault_number self }
    {
        match self {
            StepFault::Number(fault) => fault.number(),
            StepFault::UnknownCode { .. } => 24,
            StepFault::OutOfRange { .. } => 25,
            StepFault::Value(bad) => bad.fault.number(),
        }
    }

    // The place of the first byte of the faulty number, code or value.
    pub fn place(self) -> usize
        ensures { result ≡ step_fault_place self }
    {
        match self {
            StepFault::Number(fault) => fault.place(),
            StepFault::UnknownCode { place } | StepFault::OutOfRange { place } => place,
            StepFault::Value(bad) => bad.place,
        }
    }

    // The same fault with the step it was found in.
    pub fn in_step(self, step: usize) -> FaultyStep
        ensures { result ≡ numbered step self }
    {
        FaultyStep { fault: self, step }
    }
}

impl fmt::Display for StepFault {
    ghost output = { λ fault. Some (step_fault_text fault) };

    fn fmt<W: fmt::Write>(&self, f: &mut fmt::Formatter<W>) -> fmt::Result {
        match self {
            StepFault::Number(fault) => write!(f, "{fault}"),
            StepFault::UnknownCode { place } => {
                write!(f, "no step begins with the byte at {place}")
            }
            StepFault::OutOfRange { place } => write!(f, "the number at {place} means nothing"),
            StepFault::Value(bad) => write!(f, "{}, at {}", bad.fault, bad.place),
        }
    }
}

impl Error for StepFault {}

// A fault and the number of its step: 0 is the header, steps count from 1.
#[derive(Clone, Copy, PartialEq, Eq, Debug)]
pub struct FaultyStep {
    pub fault: StepFault,
    pub step: usize,
}

// Why the reading of a schedule stopped.
#[derive(Clone, Copy, PartialEq, Eq, Debug)]
pub enum RunFault {
    // The input is longer than any schedule.
    TooLong,
    // The header or a step is faulty.
    Step(FaultyStep),
}

impl From<FaultyStep> for RunFault {
    ghost from_gives = { λ f r. r ≡ Step f };

    fn from(fault: FaultyStep) -> RunFault {
        RunFault::Step(fault)
    }
}

// Here too `number`, `place` and `step` tell something of a fault and convert nothing.
impl RunFault {
    // The layer that found the fault.
    pub fn layer(self) -> Layer
        ensures { result ≡ fault_layer self }
    {
        match self {
            RunFault::TooLong => Layer::Schedule,
            RunFault::Step(faulty) => faulty.fault.layer(),
        }
    }

    // The fault's number.
    pub fn number(self) -> u8
        ensures { result ≡ fault_number self }
    {
        match self {
            RunFault::TooLong => 20,
            RunFault::Step(faulty) => faulty.fault.number(),
        }
    }

    // The place of the first faulty byte.
    pub fn place(self) -> usize
        ensures { result ≡ fault_place self }
    {
        match self {
            RunFault::TooLong => 0,
            RunFault::Step(faulty) => faulty.fault.place(),
        }
    }

    // The step that the fault is in.
    pub fn step(self) -> usize
        ensures { result ≡ fault_step self }
    {
        match self {
            RunFault::TooLong => 0,
            RunFault::Step(faulty) => faulty.step,
        }
    }
}

impl fmt::Display for RunFault {
    ghost output = { λ fault. Some (run_fault_text fault) };

    fn fmt<W: fmt::Write>(&self, f: &mut fmt::Formatter<W>) -> fmt::Result {
        match self {
            RunFault::TooLong => write!(f, "the input is longer than any schedule"),
            RunFault::Step(faulty) => write!(f, "step {}: {}", faulty.step, faulty.fault),
        }
    }
}

impl Error for RunFault {}
