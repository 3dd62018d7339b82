// The listing of a whole input, line by line.
ghost use Rattle.listing.specs.Listing.{last_line, line, listing_of, schedule_lines, step_lines};
ghost use Rattle.schedule.specs.Steps.{plain_step};
ghost use Rattle.schedule.specs.Whole.{plain_schedule};
ghost use Rattle.std.specs.Prelude.{◌≡◌, ◌++◌, map, IfOk, string_bytes, OnOk};

use crate::lines::{BadLine, EndLine, HeaderLine, StepLine, StepText};
use schedule::faults::RunFault;
use schedule::steps::Step;
use schedule::whole::{ReadError, Schedule, read_schedule};
use std::alloc::{AllocError, Global};
use values::kind::Kind;

// The listing of an input, or that there is no memory for it.
pub fn list(heap: Global, input: &[u8]) -> Result<String, AllocError>
    ensures { IfOk result (λ text. string_bytes text ≡ listing_of input.now) }
{
    let mut text = String::new(heap);
    write_listing(&mut text, heap, input)?;
    Ok(text)
}

// Appends the listing of an input.
fn write_listing(text: &mut String, heap: Global, input: &[u8]) -> Result<(), AllocError>
    ensures { OnOk result (string_bytes text.new ≡ string_bytes text.old ++ listing_of input.now) }
{
    match read_schedule(heap, input) {
        Ok(schedule) => write_schedule(text, &schedule, input.len()),
        Err(ReadError::Fault(fault)) => text.writeln(BadLine { fault }),
        Err(ReadError::NoMemory(error)) => Err(error),
    }
}

// Appends the listing of what could be read of an input with so many bytes.
fn write_schedule(text: &mut String, schedule: &Schedule, bytes: usize) -> Result<(), AllocError>
    ensures { OnOk result (string_bytes text.new ≡ string_bytes text.old ++ schedule_lines (plain_schedule schedule.now) bytes) }
{
    let header = schedule.header;
    let steps = schedule.steps.as_slice();
    text.writeln(HeaderLine { header })?;
    write_steps(text, header.kind, steps)?;
    write_last(text, schedule.fault, steps.len(), bytes)
}

// Appends the lines of all steps to a text.
#[tactic(auto, using(crate::proofs::Steps::one_more_line, crate::proofs::Steps::no_more_lines))]
fn write_steps(text: &mut String, kind: Kind, steps: &[Step]) -> Result<(), AllocError>
    ensures { OnOk result (string_bytes text.new ≡ string_bytes text.old ++ step_lines kind 1 (map plain_step steps.now)) }
{
    for (i, step) in steps.iter().enumerate() {
        text.writeln(StepLine {
            number: i + 1,
            text: StepText { kind, step: *step },
        })?;
    }
    Ok(())
}

// Appends the last line of a listing to a text.
fn write_last(
    text: &mut String,
    fault: Option<RunFault>,
    steps: usize,
    bytes: usize,
) -> Result<(), AllocError>
    ensures { OnOk result (string_bytes text.new ≡ string_bytes text.old ++ line (last_line fault steps bytes)) }
{
    match fault {
        None => text.writeln(EndLine { steps, bytes }),
        Some(fault) => text.writeln(BadLine { fault }),
    }
}
