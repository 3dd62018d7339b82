// The lines of a listing. What `{}` writes of each is stated in `shown`, and a line feed is for the caller to add.
ghost use Rattle.listing.specs.Lines.{bad_line, end_line, header_line, step_line, step_text, value_text};
ghost use Rattle.schedule.specs.Headers.{plain_header};
ghost use Rattle.schedule.specs.Steps.{plain_step};
ghost use Rattle.std.specs.Fmt.{DisplaysOnOk};
ghost use Rattle.std.specs.Prelude.{Some};

use schedule::faults::RunFault;
use schedule::headers::Header;
use schedule::steps::Step;
use std::fmt;
use values::kind::Kind;
use values::level::Level;
use values::mark::Mark;
use values::value::Value;

// The first line of a listing: what the header says of the ring.
#[derive(Clone, Copy)]
pub struct HeaderLine<'a> {
    pub header: Header<'a>,
}

impl fmt::Display for HeaderLine<'_> {
    ghost output = { λ line. Some (header_line (plain_header line.header)) };

    fn fmt<W: fmt::Write>(&self, f: &mut fmt::Formatter<W>) -> fmt::Result {
        let servers = self.header.servers;
        let kind = u32::from(self.header.kind);
        let wiring = u32::from(self.header.wiring);
        write!(f, "ring {servers} kind {kind} wiring {wiring}")
    }
}

// The bytes of a value and its kind. Bytes that are no value of the kind are not printed: `fmt` then answers an error.
#[derive(Clone, Copy)]
pub struct ValueText<'a> {
    pub kind: Kind,
    pub bytes: &'a [u8],
}

impl fmt::Display for ValueText<'_> {
    ghost output = { λ text. Some (value_text text.kind text.bytes.now) };

    fn fmt<W: fmt::Write>(&self, f: &mut fmt::Formatter<W>) -> fmt::Result {
        match self.kind {
            Kind::Level => write_value::<Level, W>(f, self.bytes),
            Kind::Mark => write_value::<Mark, W>(f, self.bytes),
        }
    }
}

// Writes the value at the front of bytes.
fn write_value<V: Value + fmt::Display, W: fmt::Write>(
    f: &mut fmt::Formatter<W>,
    bytes: &[u8],
) -> fmt::Result
    ensures { DisplaysOnOk W.write_str_gives f.old result (V.output (V.value bytes.now)) f.new }
{
    let value = V::read(bytes).map_err(|_| fmt::Error)?;
    write!(f, "{value}")
}

// A step under a kind of value, as its letter and its parts. The letters of the codes are written out, so that each line shows what it prints.
#[derive(Clone, Copy)]
pub struct StepText<'a> {
    pub kind: Kind,
    pub step: Step<'a>,
}

impl fmt::Display for StepText<'_> {
    ghost output = { λ text. Some (step_text text.kind (plain_step text.step)) };

    fn fmt<W: fmt::Write>(&self, f: &mut fmt::Formatter<W>) -> fmt::Result {
        match self.step {
            Step::Write {
                client,
                server,
                value,
            } => {
                let value = ValueText {
                    kind: self.kind,
                    bytes: value,
                };
                write!(f, "W {client} {server} {value}")
            }
            Step::Read { client, server } => write!(f, "R {client} {server}"),
            Step::GiveUp { client } => write!(f, "G {client}"),
            Step::Turn { server } => write!(f, "T {server}"),
            Step::Deliver { server } => write!(f, "D {server}"),
            Step::Crash { server } => write!(f, "C {server}"),
            Step::Notice { server, crashed } => write!(f, "N {server} {crashed}"),
            Step::Pick { pick } => write!(f, "P {pick}"),
        }
    }
}

// The line of a step, with its number from 1.
#[derive(Clone, Copy)]
pub struct StepLine<'a> {
    pub number: usize,
    pub text: StepText<'a>,
}

impl fmt::Display for StepLine<'_> {
    ghost output = { λ line. Some (step_line line.text.kind line.number (plain_step line.text.step)) };

    fn fmt<W: fmt::Write>(&self, f: &mut fmt::Formatter<W>) -> fmt::Result {
        write!(f, "{} {}", self.number, self.text)
    }
}

// The last line of a whole schedule: how many steps and how many bytes it has.
#[derive(Clone, Copy)]
pub struct EndLine {
    pub steps: usize,
    pub bytes: usize,
}

impl fmt::Display for EndLine {
    ghost output = { λ line. Some (end_line line.steps line.bytes) };

    fn fmt<W: fmt::Write>(&self, f: &mut fmt::Formatter<W>) -> fmt::Result {
        write!(f, "end {} {}", self.steps, self.bytes)
    }
}

// The last line of a bad schedule: the fault at which reading stopped.
#[derive(Clone, Copy)]
pub struct BadLine {
    pub fault: RunFault,
}

impl fmt::Display for BadLine {
    ghost output = { λ line. Some (bad_line line.fault) };

    fn fmt<W: fmt::Write>(&self, f: &mut fmt::Formatter<W>) -> fmt::Result {
        let letter = self.fault.layer().letter();
        let number = self.fault.number();
        let place = self.fault.place();
        let step = self.fault.step();
        write!(f, "bad {letter} {number} {place} {step}")
    }
}
