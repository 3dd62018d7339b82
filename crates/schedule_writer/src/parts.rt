// The parts of a step in the order of the format, and how many bytes they take.
ghost use Rattle.std.specs.Prelude.{◌≡◌, ◌≤◌, length, IfOk};
ghost use Rattle.numbers.specs.Numbers.{number_bytes};
ghost use Rattle.schedule.specs.Steps.{plain_step};
ghost use Rattle.schedule.specs.Bytes.{number_fits, parts_bytes, parts_of, parts_writable, value_whole};
ghost use Rattle.schedule_writer.specs.Answers.{sized};
ghost use Rattle.schedule_writer.specs.Parts.{plain_parts};

use numbers::faults::WriteRefusal;
use numbers::writing::{LARGEST, number_len};
use schedule::headers::Format;
use schedule::steps::{Code, Step};
use values::kind::Kind;

// A code, a number, perhaps a second number, perhaps a value.
#[derive(Clone, Copy)]
pub struct Parts<'a> {
    pub code: Code,
    pub first: u32,
    pub second: Option<u32>,
    pub value: Option<&'a [u8]>,
}

// The parts of a step.
impl<'a> From<Step<'a>> for Parts<'a> {
    ghost from_gives = { λ step parts. plain_parts parts ≡ parts_of (plain_step step) };

    fn from(step: Step<'a>) -> Parts<'a> {
        let (first, second, value) = match step {
            Step::Write {
                client,
                server,
                value,
            } => (client, Some(server), Some(value)),
            Step::Read { client, server } => (client, Some(server), None),
            Step::GiveUp { client } => (client, None, None),
            Step::Turn { server } | Step::Deliver { server } | Step::Crash { server } => {
                (server, None, None)
            }
            Step::Notice { server, crashed } => (server, Some(crashed), None),
            Step::Pick { pick } => (pick, None, None),
        };
        Parts {
            code: step.code(),
            first,
            second,
            value,
        }
    }
}

impl Parts<'_> {
    // How many bytes the parts take, if they may be written.
    pub fn size(self, format: Format) -> Result<usize, WriteRefusal>
        ensures { result ≡ sized (parts_writable format.kind format.wiring (plain_parts self.entry)) (length (parts_bytes (plain_parts self.entry))) }
    {
        if format.wiring.is_line() && self.code == Code::Pick {
            return Err(WriteRefusal::NotWritable);
        }
        let first = number_size(self.first)?;
        let second = self.second.map_or(Ok(0), number_size)?;
        let value = self
            .value
            .map_or(Ok(0), |value| value_size(format.kind, value))?;
        Ok(1 + first + second + value)
    }
}

// How many bytes a number takes, if it has any.
fn number_size(number: u32) -> Result<usize, WriteRefusal>
    ensures size { result ≡ sized (number_fits number) (length (number_bytes number)) }
    ensures small { IfOk result (λ n. n ≤ 3) }
{
    if number > LARGEST {
        return Err(WriteRefusal::NotWritable);
    }
    Ok(number_len(number))
}

// How many bytes a value takes, if it is whole.
pub fn value_size(kind: Kind, value: &[u8]) -> Result<usize, WriteRefusal>
    ensures size { result ≡ sized (value_whole kind value.now) (length value.now) }
    ensures small { IfOk result (λ n. n ≤ 8) }
{
    let size = kind.byte_len();
    if value.len() != size {
        return Err(WriteRefusal::NotWritable);
    }
    kind.check(value).map_err(|_| WriteRefusal::NotWritable)?;
    Ok(size)
}
