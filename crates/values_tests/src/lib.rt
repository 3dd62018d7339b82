// Examples of values: what bytes read as, what is written and printed, and each fault.
#![tactic(auto)]

#[cfg(test)]
mod tests {
    use std::test::Fail;
    use values::fault::{Unwritten, ValueFault};
    use values::kind::{Kind, UnknownKind};
    use values::level::Level;
    use values::mark::Mark;
    use values::value::Value;

    #[test]
    fn values_print(rt: HostRuntime) -> Result<(), Fail> {
        let level = Level::read(&[7, 0, 0, 0, 99])?;
        assert_eq!(rt; level.to_string(rt.alloc())?.as_str(), "7");
        let mark = Mark::read(b"\x02\x01PSU04A")?;
        assert_eq!(rt; mark.to_string(rt.alloc())?.as_str(), "258-PSU04A");
        Ok(())
    }

    #[test]
    fn errors_print(rt: HostRuntime) -> Result<(), Fail> {
        let texts = [
            ValueFault::Cut.to_string(rt.alloc())?,
            Unwritten::Short.to_string(rt.alloc())?,
            UnknownKind(3).to_string(rt.alloc())?,
        ];
        assert_eq!(rt; texts[0].as_str(), "the value is cut short");
        assert_eq!(rt; texts[1].as_str(), "there is no room for the value");
        assert_eq!(rt; texts[2].as_str(), "no kind of value has the number 3");
        Ok(())
    }

    #[test]
    fn each_fault_is_told(rt: HostRuntime) {
        let cases: [(Kind, &[u8], Result<(), ValueFault>); 6] = [
            (Kind::Level, &[7, 0, 0, 0], Ok(())),
            (Kind::Level, &[7, 0, 0], Err(ValueFault::Cut)),
            (Kind::Mark, b"\x02\x01PSU04A", Ok(())),
            (Kind::Mark, b"\x02\x01psu04", Err(ValueFault::Cut)),
            (Kind::Mark, b"\x02\x01PSU04a", Err(ValueFault::NotAllowed)),
            (Kind::Mark, b"\x02\x01[SU04A", Err(ValueFault::NotAllowed)),
        ];
        for (kind, bytes, expected) in cases {
            assert_eq!(rt; kind.check(bytes), expected);
        }
        assert_eq!(rt; ValueFault::Cut.number(), 26);
        assert_eq!(rt; ValueFault::NotAllowed.number(), 27);
    }

    #[test]
    fn a_refused_write_leaves_the_buffer(rt: HostRuntime) {
        let mut buffer = [9; 9];
        let small = Mark {
            trace: 258,
            name: *b"psu04a",
        };
        assert_eq!(rt; small.write(&mut buffer), Err(Unwritten::NotAllowed));
        let mark = Mark {
            trace: 258,
            name: *b"PSU04A",
        };
        assert_eq!(rt; mark.write(&mut buffer[0..7]), Err(Unwritten::Short));
        assert_eq!(rt; &buffer[0..9], &[9; 9][0..9]);
        assert_eq!(rt; mark.write(&mut buffer), Ok(()));
        assert_eq!(rt; &buffer[0..9], b"\x02\x01PSU04A\x09" as &[u8]);
    }

    #[test]
    fn kinds_have_numbers(rt: HostRuntime) {
        assert_eq!(rt; Kind::try_from(Level::NUMBER), Ok(Kind::Level));
        assert_eq!(rt; Kind::try_from(Mark::NUMBER), Ok(Kind::Mark));
        assert_eq!(rt; Kind::try_from(0u32), Err(UnknownKind(0)));
        assert_eq!(rt; Kind::try_from(3u32), Err(UnknownKind(3)));
        assert_eq!(rt; u32::from(Kind::Level), 1);
        assert_eq!(rt; u32::from(Kind::Mark), 2);
    }
}
