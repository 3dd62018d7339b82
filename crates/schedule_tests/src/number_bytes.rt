// The bytes of numbers, written and read.
use numbers::cursor::Cursor;
use numbers::faults::{NumberFault, WriteRefusal};
use numbers::writing::write_number;
use std::process::Abort;
use std::test::Fail;

// A number is written as these bytes, and these bytes read as it.
fn is_written(rt: &impl Abort, number: u32, bytes: &[u8]) -> Result<(), Fail> {
    let mut out = [0u8; 4];
    let size = write_number(&mut out, 0, number)?;
    assert!(rt; size <= 4);
    assert_eq!(rt; &out[0..size], bytes);
    let mut cursor = Cursor::new(bytes);
    assert_eq!(rt; cursor.number()?, number);
    assert_eq!(rt; cursor.place(), bytes.len());
    Ok(())
}

#[test]
fn numbers_take_one_to_three_bytes(rt: HostRuntime) -> Result<(), Fail> {
    is_written(&rt, 0, b"\x00")?;
    is_written(&rt, 127, b"\x7F")?;
    is_written(&rt, 128, b"\x80\x01")?;
    is_written(&rt, 300, b"\xAC\x02")?;
    is_written(&rt, 16_383, b"\xFF\x7F")?;
    is_written(&rt, 16_384, b"\x80\x80\x01")?;
    is_written(&rt, 2_097_151, b"\xFF\xFF\x7F")
}

// Bytes that are no number, and why.
fn is_refused(rt: &impl Abort, bytes: &[u8], fault: NumberFault) {
    let mut cursor = Cursor::new(bytes);
    assert_eq!(rt; cursor.number(), Err(fault));
    assert_eq!(rt; cursor.place(), 0);
}

#[test]
fn faulty_numbers_are_refused(rt: HostRuntime) {
    let place = 0;
    is_refused(&rt, b"", NumberFault::Cut { place });
    is_refused(&rt, b"\x80", NumberFault::Cut { place });
    is_refused(&rt, b"\xFF\xFF", NumberFault::Cut { place });
    is_refused(&rt, b"\x80\x80\x80", NumberFault::TooLong { place });
    is_refused(&rt, b"\x80\x00", NumberFault::NotShortest { place });
    is_refused(&rt, b"\x80\x80\x00", NumberFault::NotShortest { place });
}

#[test]
fn numbers_that_do_not_fit_are_refused(rt: HostRuntime) {
    let mut out = [9u8; 2];
    assert_eq!(rt;
        write_number(&mut out, 0, 2_097_152),
        Err(WriteRefusal::NotWritable)
    );
    assert_eq!(rt;
        write_number(&mut out, 0, 16_384),
        Err(WriteRefusal::NoRoom)
    );
    assert_eq!(rt; write_number(&mut out, 1, 128), Err(WriteRefusal::NoRoom));
    assert_eq!(rt; out, [9, 9]);
}
