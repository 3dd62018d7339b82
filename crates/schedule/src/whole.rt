// Reading a whole input: the header, and every step up to the first fault.
ghost use Rattle.std.specs.Prelude.{◌≡◌, ◌≤◌, map, length, IfOk, Some};
ghost use Rattle.numbers.specs.Cursors.{Reads, left};
ghost use Rattle.schedule.specs.Headers.{plain_header};
ghost use Rattle.schedule.specs.Reading.{header_of};
ghost use Rattle.schedule.specs.RoundTrip.{SchedulesReadBack};
ghost use Rattle.schedule.specs.Steps.{plain_step};
ghost use Rattle.schedule.specs.Texts.{read_error_text};
ghost use Rattle.schedule.specs.Whole.{ReadsSchedule, header_numbered, most_bytes, steps_of};
ghost use Rattle.schedule.specs.declared.whole.ReadError.TheVariants.{Fault, NoMemory};

use crate::faults::RunFault;
use crate::headers::{Format, Header};
use crate::reader::Reader;
use crate::steps::Step;
use std::alloc::{AllocError, Global};
use std::error::Error;
use std::fmt;

// No schedule has more bytes.
pub const MOST_BYTES: usize = 65_536;

// A schedule as far as it could be read: the steps before the first fault, and that fault.
#[derive(Drop)]
pub struct Schedule<'a> {
    pub header: Header<'a>,
    pub steps: Vec<Step<'a>>,
    pub fault: Option<RunFault>,
}

// Why no schedule was read.
#[derive(Clone, Copy, Debug, Drop)]
pub enum ReadError {
    // The header is faulty, or the input too long.
    Fault(RunFault),
    // There is no memory for the steps.
    NoMemory(AllocError),
}

impl From<RunFault> for ReadError {
    ghost from_gives = { λ f r. r ≡ Fault f };

    fn from(fault: RunFault) -> ReadError {
        ReadError::Fault(fault)
    }
}

impl From<AllocError> for ReadError {
    ghost from_gives = { λ f r. r ≡ NoMemory f };

    fn from(error: AllocError) -> ReadError {
        ReadError::NoMemory(error)
    }
}

impl fmt::Display for ReadError {
    ghost output = { λ error. Some (read_error_text error) };

    fn fmt<W: fmt::Write>(&self, f: &mut fmt::Formatter<W>) -> fmt::Result {
        match self {
            ReadError::Fault(fault) => write!(f, "{fault}"),
            ReadError::NoMemory(_) => write!(f, "there is no memory for the steps"),
        }
    }
}

impl Error for ReadError {}

// Reads an input up to its first fault. Written out, a schedule reads back as the same header and steps, and no other bytes read as those.
pub fn read_schedule<'a>(heap: Global, input: &'a [u8]) -> Result<Schedule<'a>, ReadError>
    ensures answer { ReadsSchedule result input.now }
    ensures law { SchedulesReadBack }
{
    read_up_to_fault(heap, input)
}

// Reads the header and every step that stands before the first fault.
fn read_up_to_fault<'a>(heap: Global, input: &'a [u8]) -> Result<Schedule<'a>, ReadError>
    ensures { ReadsSchedule result input.now }
{
    if input.len() > MOST_BYTES {
        return Err(ReadError::Fault(RunFault::TooLong));
    }
    let mut reader = Reader::new(input);
    let header = header_first(&mut reader)?;
    let (steps, fault) = all_steps(heap, &mut reader, header.format())?;
    Ok(Schedule {
        header,
        steps,
        fault,
    })
}

// Reads the header; its faults are those of step 0.
fn header_first<'a>(reader: &mut Reader<'a>) -> Result<Header<'a>, RunFault>
    ensures { Reads plain_header result (header_numbered (header_of reader.old.cursor.total (left reader.old.cursor))) reader.old.cursor reader.new.cursor }
{
    reader
        .header()
        .map_err(|fault| RunFault::Step(fault.in_step(0)))
}

// Reads every step that is left up to the first fault.
fn all_steps<'a>(
    heap: Global,
    reader: &mut Reader<'a>,
    format: Format,
) -> Result<(Vec<Step<'a>>, Option<RunFault>), AllocError>
    requires { length (left reader.old.cursor) ≤ most_bytes }
    ensures { IfOk result (λ p. steps_of reader.old.cursor.total format.kind format.wiring 1 (left reader.old.cursor) ≡ (map plain_step p.0.items, p.1)) }
{
    let mut steps = Vec::new(heap);
    // No `collect`: the steps before a fault are kept beside it.
    loop {
        match reader.step(format) {
            Ok(Some(step)) => steps.push(step)?,
            Ok(None) => return Ok((steps, None)),
            Err(fault) => {
                let faulty = fault.in_step(steps.len() + 1);
                return Ok((steps, Some(faulty.into())));
            }
        }
    }
}
