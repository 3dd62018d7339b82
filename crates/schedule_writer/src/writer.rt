// Writing headers and steps into a buffer.
ghost use Rattle.std.specs.Prelude.{◌≡◌, ◌+◌, ◌≤◌, true, length};
ghost use Rattle.numbers.specs.Laying.{laid_or_kept, lay_at};
ghost use Rattle.numbers.specs.Numbers.{number_bytes};
ghost use Rattle.schedule.specs.Headers.{plain_header};
ghost use Rattle.schedule.specs.Steps.{plain_step};
ghost use Rattle.schedule.specs.Bytes.{header_bytes, header_writable, number_fits, parts_bytes, parts_writable, second_bytes, second_fits, step_bytes, step_writable, value_bytes};
ghost use Rattle.schedule_writer.specs.Answers.{fitted_answer, sized, write_answer};
ghost use Rattle.schedule_writer.specs.Parts.{plain_parts};
ghost use Rattle.std.specs.Option.{option_map};

use crate::parts::{Parts, value_size};
use numbers::faults::WriteRefusal;
use numbers::writing::{number_len, write_number};
use schedule::headers::{Format, Header, LEAST_SERVERS, MOST_SERVERS};
use schedule::steps::Step;

// Writes a header to the front of a buffer and answers its length. Bytes behind it stay, and a refusal leaves all as it was.
pub fn write_header(out: &mut [u8], header: Header) -> Result<usize, WriteRefusal>
    ensures answer { result ≡ write_answer (header_writable (plain_header header.entry)) (length (header_bytes (plain_header header.entry))) (length out.old) }
    ensures after { out.new ≡ laid_or_kept result 0 (header_bytes (plain_header header.entry)) out.old }
{
    let size = fitted(header_size(header)?, out.len())?;
    put_header(out, header);
    Ok(size)
}

// Writes a step of a format to the front of a buffer and answers its length. Bytes behind it stay, and a refusal leaves all as it was.
pub fn write_step(out: &mut [u8], format: Format, step: Step) -> Result<usize, WriteRefusal>
    ensures answer { result ≡ write_answer (step_writable format.kind format.wiring (plain_step step.entry)) (length (step_bytes (plain_step step.entry))) (length out.old) }
    ensures after { out.new ≡ laid_or_kept result 0 (step_bytes (plain_step step.entry)) out.old }
{
    let parts = Parts::from(step);
    let size = fitted(parts.size(format)?, out.len())?;
    put_parts(out, parts);
    Ok(size)
}

// The size, if there is room for it.
fn fitted(size: usize, room: usize) -> Result<usize, WriteRefusal>
    ensures { result ≡ fitted_answer (Ok size) room }
{
    if size <= room {
        Ok(size)
    } else {
        Err(WriteRefusal::NoRoom)
    }
}

// How many bytes a header takes, if it may be written.
fn header_size(header: Header) -> Result<usize, WriteRefusal>
    ensures { result ≡ sized (header_writable (plain_header header.entry)) (length (header_bytes (plain_header header.entry))) }
{
    if !(LEAST_SERVERS..=MOST_SERVERS).contains(&header.servers) {
        return Err(WriteRefusal::NotWritable);
    }
    let first = value_size(header.kind, header.first)?;
    let numbers = number_len(header.servers)
        + number_len(u32::from(header.kind))
        + number_len(u32::from(header.wiring));
    Ok(numbers + first)
}

// Writes a header where there is room for it.
fn put_header(out: &mut [u8], header: Header)
    requires { (header_writable (plain_header header) ≡ true) × (length (header_bytes (plain_header header)) ≤ length out.old) }
    ensures { out.new ≡ lay_at 0 (header_bytes (plain_header header.entry)) out.old }
{
    let kind_at = put_number(out, 0, header.servers);
    let wiring_at = put_number(out, kind_at, u32::from(header.kind));
    let first_at = put_number(out, wiring_at, u32::from(header.wiring));
    put_value(out, first_at, header.first);
}

// Writes the parts of a step where there is room for them.
fn put_parts(out: &mut [u8], parts: Parts)
    requires { (number_fits parts.first ≡ true) × ((second_fits parts.second ≡ true) × (length (parts_bytes (plain_parts parts)) ≤ length out.old)) }
    ensures { out.new ≡ lay_at 0 (parts_bytes (plain_parts parts.entry)) out.old }
{
    out[0] = u8::from(parts.code);
    let mut at = put_number(out, 1, parts.first);
    if let Some(second) = parts.second {
        at = put_number(out, at, second);
    }
    if let Some(value) = parts.value {
        put_value(out, at, value);
    }
}

// Writes a number at a place where there is room, and answers the place behind it. A struct of buffer and place would be taken apart again for `write_number`.
fn put_number(out: &mut [u8], at: usize, number: u32) -> usize
    requires { (number_fits number ≡ true) × (at + length (number_bytes number) ≤ length out.old) }
    ensures behind { result ≡ at + length (number_bytes number) }
    ensures after { out.new ≡ lay_at at (number_bytes number) out.old }
{
    at + write_number(out, at, number).unwrap()
}

// Writes the bytes of a value at a place where there is room.
#[tactic(auto, using(crate::proofs::Laid::a_copy_lays))]
fn put_value(out: &mut [u8], at: usize, value: &[u8])
    requires { at + length value.now ≤ length out.old }
    ensures { out.new ≡ lay_at at value.now out.old }
{
    out[at..at + value.len()].copy_from_slice(value);
}
