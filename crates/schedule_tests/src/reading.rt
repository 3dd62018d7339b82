// Whole schedules: the sample, a schedule with marks and picks, and the longest there are.
use numbers::faults::WriteRefusal;
use schedule::steps::Step;
use schedule::whole::{MOST_BYTES, ReadError, Schedule, read_schedule};
use schedule_writer::writer::{write_header, write_step};
use std::alloc::Global;
use std::process::Abort;
use std::test::Fail;

// Ten steps on a ring of two servers.
const SAMPLE: &[u8] =
    b"\x02\x01\x01\x00\x00\x00\x00\x01\x00\x00\x07\x00\x00\x00\x04\x00\x02\x01\x01\x05\x01\x04\x01\x02\x02\x01\x05\x00\x05\x01\x04\x01\x05\x00";

// Marks on a ring of three servers, every step once, and picks.
const MARKS: &[u8] =
    b"\x03\x02\x02\x02\x01PSU04A\x01\x0F\x02\x00\x00AAAAAA\x02\x00\x01\x03\x0F\x04\x02\x05\x00\x06\x01\x07\x00\x01\x08\xAC\x02";

// The schedule that an input reads as.
fn read<'a>(heap: Global, input: &'a [u8]) -> Result<Schedule<'a>, Fail> {
    match read_schedule(heap, input) {
        Ok(schedule) => Ok(schedule),
        Err(ReadError::Fault(_)) => Err(Fail::new("a faulty header")),
        Err(ReadError::NoMemory(error)) => Err(error.into()),
    }
}

// Appends the bytes that are written.
fn append<F: FnOnce(&mut [u8]) -> Result<usize, WriteRefusal>>(
    rt: &impl Abort,
    bytes: &mut Vec<u8>,
    write: F,
) -> Result<(), Fail>
    requires { F.IsAlwaysCallable write }
{
    // A writer fills the front of a buffer and answers how much, since it has no heap.
    let mut part = [0u8; 16];
    let size = write(&mut part)?;
    assert!(rt; size <= 16);
    bytes.extend_from_slice(&part[0..size])?;
    Ok(())
}

// The letters of the steps in their order.
fn letters(heap: Global, schedule: &Schedule) -> Result<String, Fail> {
    let mut text = String::new(heap);
    for step in schedule.steps.iter() {
        text.push(step.code().letter())?;
    }
    Ok(text)
}

// The bytes of a schedule, written part by part.
fn written(rt: &impl Abort, heap: Global, schedule: &Schedule) -> Result<Vec<u8>, Fail> {
    let mut bytes = Vec::new(heap);
    let header = schedule.header;
    append(rt, &mut bytes, |out| write_header(out, header))?;
    for step in schedule.steps.iter() {
        append(
            rt,
            &mut bytes,
            |out| write_step(out, header.format(), *step),
        )?;
    }
    Ok(bytes)
}

// The input reads as steps of these letters without a fault, and what was read is written as the same bytes.
fn reads_and_writes(rt: &impl Abort, heap: Global, input: &[u8], text: &str) -> Result<(), Fail> {
    let schedule = read(heap, input)?;
    assert!(rt; schedule.fault.is_none());
    assert_eq!(rt; letters(heap, &schedule)?.as_str(), text);
    assert_eq!(rt; written(rt, heap, &schedule)?.as_slice(), input);
    Ok(())
}

#[test]
fn schedules_read_and_write_back(rt: HostRuntime) -> Result<(), Fail> {
    reads_and_writes(&rt, rt.alloc(), SAMPLE, "WTRDTRDDTD")?;
    reads_and_writes(&rt, rt.alloc(), MARKS, "WRGTDCNP")
}

#[test]
fn the_sample_begins_with_a_write(rt: HostRuntime) -> Result<(), Fail> {
    let schedule = read(rt.alloc(), SAMPLE)?;
    assert_eq!(rt; schedule.header.servers, 2);
    assert_eq!(rt; u32::from(schedule.header.kind), 1);
    assert_eq!(rt; u32::from(schedule.header.wiring), 1);
    assert_eq!(rt; schedule.header.first, b"\x00\x00\x00\x00".as_slice());
    match schedule.steps.first() {
        Some(
            Step::Write {
                client,
                server,
                value,
            },
        ) => {
            assert_eq!(rt; *client, 0);
            assert_eq!(rt; *server, 0);
            assert_eq!(rt; *value, b"\x07\x00\x00\x00".as_slice());
            Ok(())
        }
        _ => Err(Fail::new("another step")),
    }
}

// A schedule of turns with so many bytes.
fn turns(heap: Global, length: usize) -> Result<Vec<u8>, Fail> {
    let mut bytes = Vec::new(heap);
    bytes.extend_from_slice(b"\x02\x01\x01\x00\x00\x00\x00\x02\x00\x00")?;
    for _ in 0..length / 2 {
        bytes.extend_from_slice(b"\x04\x00")?;
    }
    Ok(bytes)
}

#[test]
fn the_longest_schedule_is_read_and_no_longer_one(rt: HostRuntime) -> Result<(), Fail> {
    let mut bytes = turns(rt.alloc(), MOST_BYTES - 10)?;
    assert_eq!(rt; bytes.len(), MOST_BYTES);
    let longest = read(rt.alloc(), bytes.as_slice())?;
    assert!(rt; longest.fault.is_none());
    assert_eq!(rt; longest.steps.len(), 1 + (MOST_BYTES - 10) / 2);
    drop(longest);
    bytes.push(4)?;
    match read_schedule(rt.alloc(), bytes.as_slice()) {
        Err(ReadError::Fault(fault)) => {
            assert_eq!(rt; fault.number(), 20);
            Ok(())
        },
        _ => Err(Fail::new("read")),
    }
}
