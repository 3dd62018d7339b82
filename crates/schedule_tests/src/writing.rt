// What a writer refuses, and that a refusal leaves the buffer as it was.
use numbers::faults::WriteRefusal;
use schedule::headers::{Format, Header, WiringKind};
use schedule::steps::Step;
use schedule_writer::writer::{write_header, write_step};
use std::process::Abort;
use std::test::Fail;
use values::kind::Kind;

// The writing is refused by this number where there is so much room, and leaves the buffer as it was.
fn refused<F: FnOnce(&mut [u8]) -> Result<usize, WriteRefusal>>(
    rt: &impl Abort,
    room: usize,
    number: u8,
    write: F,
) -> Result<(), Fail>
    requires { F.IsAlwaysCallable write }
{
    let mut out = [7u8; 16];
    assert!(rt; room <= 16);
    match write(&mut out[0..room]) {
        Ok(_) => return Err(Fail::new("written")),
        Err(refusal) => assert_eq!(rt; refusal.number(), number),
    }
    assert_eq!(rt; out, [7u8; 16]);
    Ok(())
}

#[test]
fn steps_that_would_not_read_back_are_refused(rt: HostRuntime) -> Result<(), Fail> {
    let levels = Format {
        kind: Kind::Level,
        wiring: WiringKind::Line,
    };
    let marks = Format {
        kind: Kind::Mark,
        ..levels
    };
    let write = Step::Write {
        client: 0,
        server: 1,
        value: b"abcd",
    };
    let pick = Step::Pick { pick: 3 };
    let far = Step::Turn { server: 2_097_152 };
    let turn = Step::Turn { server: 0 };
    refused(&rt, 16, 29, |out| write_step(out, levels, pick))?;
    refused(&rt, 16, 29, |out| write_step(out, levels, far))?;
    refused(&rt, 0, 29, |out| write_step(out, levels, far))?;
    refused(&rt, 1, 28, |out| write_step(out, levels, turn))?;
    refused(&rt, 6, 28, |out| write_step(out, levels, write))?;
    refused(&rt, 16, 29, |out| write_step(out, marks, write))
}

// A header of a ring with so many servers and a first value.
fn header_of(servers: u32, kind: Kind, first: &[u8]) -> Header {
    Header {
        servers,
        kind,
        wiring: WiringKind::Pick,
        first,
    }
}

#[test]
fn headers_that_would_not_read_back_are_refused(rt: HostRuntime) -> Result<(), Fail> {
    let few = header_of(1, Kind::Level, b"abcd");
    let many = header_of(9, Kind::Level, b"abcd");
    let short = header_of(2, Kind::Level, b"abc");
    let long = header_of(2, Kind::Level, b"abcde");
    let small = header_of(2, Kind::Mark, b"\x00\x00abcdef");
    let whole = header_of(2, Kind::Level, b"abcd");
    refused(&rt, 16, 29, |out| write_header(out, few))?;
    refused(&rt, 16, 29, |out| write_header(out, many))?;
    refused(&rt, 16, 29, |out| write_header(out, short))?;
    refused(&rt, 16, 29, |out| write_header(out, long))?;
    refused(&rt, 16, 29, |out| write_header(out, small))?;
    refused(&rt, 6, 28, |out| write_header(out, whole))
}
