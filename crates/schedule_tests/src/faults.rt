// Every fault, in the header and in a step, with its layer, number, place and step.
use schedule::faults::RunFault;
use schedule::whole::{ReadError, read_schedule};
use std::alloc::Global;
use std::process::Abort;
use std::test::Fail;

// The layer, number, place and step by which a fault is told.
type Told = (char, u8, usize, usize);

// How a fault is told.
fn told(fault: RunFault) -> Told {
    (
        fault.layer().letter(),
        fault.number(),
        fault.place(),
        fault.step(),
    )
}

// Reading the input ends with a fault that is told like this.
fn bad(rt: &impl Abort, heap: Global, input: &[u8], expected: Told) -> Result<(), Fail> {
    let fault = match read_schedule(heap, input) {
        Ok(schedule) => schedule.fault.ok_or_else(|| Fail::new("no fault"))?,
        Err(ReadError::Fault(fault)) => fault,
        Err(ReadError::NoMemory(error)) => return Err(error.into()),
    };
    assert_eq!(rt; told(fault), expected);
    Ok(())
}

#[test]
fn faults_of_a_header(rt: HostRuntime) -> Result<(), Fail> {
    let cases: [(&[u8], Told); 13] = [
        (b"", ('N', 21, 0, 0)),
        (b"\x02", ('N', 21, 1, 0)),
        (b"\x02\x81", ('N', 21, 1, 0)),
        (b"\x02\x01\x80\x80\x80\x01", ('N', 22, 2, 0)),
        (b"\x82\x00\x01", ('N', 23, 0, 0)),
        (b"\x01\x01\x01\x00\x00\x00\x00", ('S', 25, 0, 0)),
        (b"\x09\x80", ('S', 25, 0, 0)),
        (b"\x02\x03\x01", ('S', 25, 1, 0)),
        (b"\x08\x02\x00", ('S', 25, 2, 0)),
        (b"\x02\x01\x01\x00\x00\x00", ('V', 26, 3, 0)),
        (b"\x02\x01\x01", ('V', 26, 3, 0)),
        (b"\x02\x02\x01\x00\x00PSu04A", ('V', 27, 3, 0)),
        (b"\x02\x02\x01\x00\x00Psu", ('V', 26, 3, 0)),
    ];
    for (input, expected) in cases {
        bad(&rt, rt.alloc(), input, expected)?;
    }
    Ok(())
}

#[test]
fn faults_of_a_step(rt: HostRuntime) -> Result<(), Fail> {
    let cases: [(&[u8], Told); 10] = [
        (b"\x02\x01\x01\x00\x00\x00\x00\x04", ('N', 21, 8, 1)),
        (
            b"\x02\x01\x01\x00\x00\x00\x00\x04\x00\x02\x01\x80",
            ('N', 21, 11, 2),
        ),
        (
            b"\x02\x01\x01\x00\x00\x00\x00\x07\x01\xFF\xFF\xFF",
            ('N', 22, 9, 1),
        ),
        (
            b"\x02\x01\x01\x00\x00\x00\x00\x03\x80\x80\x00",
            ('N', 23, 8, 1),
        ),
        (
            b"\x02\x01\x01\x00\x00\x00\x00\x04\x00\x09\x00",
            ('S', 24, 9, 2),
        ),
        (b"\x02\x01\x01\x00\x00\x00\x00\x00", ('S', 24, 7, 1)),
        (b"\x02\x01\x01\x00\x00\x00\x00\x08\x80", ('S', 24, 7, 1)),
        (b"\x02\x01\x02\x00\x00\x00\x00\x08\x80", ('N', 21, 8, 1)),
        (
            b"\x02\x01\x01\x00\x00\x00\x00\x01\x00\x00\x07",
            ('V', 26, 10, 1),
        ),
        (
            b"\x02\x02\x01\x00\x00PSU04A\x01\x00\x00\x02\x01PSU04-",
            ('V', 27, 14, 1),
        ),
    ];
    for (input, expected) in cases {
        bad(&rt, rt.alloc(), input, expected)?;
    }
    Ok(())
}
