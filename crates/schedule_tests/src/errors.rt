// What the errors of schedules and of their numbers print.
use numbers::faults::{NumberFault, WriteRefusal};
use schedule::faults::{RunFault, StepFault};
use schedule::headers::UnknownWiring;
use schedule::steps::UnknownCode;
use schedule::whole::ReadError;
use std::test::Fail;

#[test]
fn errors_of_numbers_print(rt: HostRuntime) -> Result<(), Fail> {
    let texts = [
        NumberFault::Cut { place: 3 }.to_string(rt.alloc())?,
        NumberFault::NotShortest { place: 12 }.to_string(rt.alloc())?,
        WriteRefusal::NoRoom.to_string(rt.alloc())?,
    ];
    assert_eq!(rt; texts[0].as_str(), "the number at 3 is cut short");
    assert_eq!(rt; texts[1].as_str(), "the number at 12 could be shorter");
    assert_eq!(rt; texts[2].as_str(), "there is no room for it");
    Ok(())
}

#[test]
fn errors_of_schedules_print(rt: HostRuntime) -> Result<(), Fail> {
    let fault = StepFault::OutOfRange { place: 1 };
    let run = RunFault::from(fault.in_step(2));
    let texts = [
        UnknownWiring(3).to_string(rt.alloc())?,
        UnknownCode(9).to_string(rt.alloc())?,
        fault.to_string(rt.alloc())?,
        run.to_string(rt.alloc())?,
        ReadError::from(run).to_string(rt.alloc())?,
    ];
    assert_eq!(rt; texts[0].as_str(), "no wiring has the number 3");
    assert_eq!(rt; texts[1].as_str(), "no step begins with the byte 9");
    assert_eq!(rt; texts[2].as_str(), "the number at 1 means nothing");
    assert_eq!(rt; texts[3].as_str(), "step 2: the number at 1 means nothing");
    assert_eq!(rt; texts[4].as_str(), "step 2: the number at 1 means nothing");
    Ok(())
}
