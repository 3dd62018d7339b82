// The listings of the examples, of each way a header can be faulty, and of the longest input and one byte more.
#![tactic(auto)]

#[cfg(test)]
mod tests {
    use listing::whole::list;
    use schedule::whole::MOST_BYTES;
    use std::alloc::{AllocError, Global};
    use std::test::Fail;

    // The bytes of examples/sample.bin.
    const SAMPLE: &[u8] = &[
        2, 1, 1, 0, 0, 0, 0, 1, 0, 0, 7, 0, 0, 0, 4, 0, 2, 1, 1, 5, 1, 4, 1, 2, 2, 1, 5, 0, 5, 1,
        4, 1, 5, 0,
    ];
    // The bytes of examples/marks.bin.
    const MARKS: &[u8] =
        b"\x04\x02\x02\x02\x01PSU04A\x01\x00\x00\x2C\x01LED01B\x04\x00\x08\xAC\x02\x05\x01\x02\x01\x01\x06\x00\x07\x01\x00\x04\x01\x08\x01\x05\x02\x03\x00";
    // The bytes of examples/damaged.bin.
    const DAMAGED: &[u8] = &[
        2, 1, 1, 0, 0, 0, 0, 1, 0, 0, 7, 0, 0, 0, 4, 0, 2, 1, 0x80, 0,
    ];

    #[test]
    fn the_examples_are_listed(rt: HostRuntime) -> Result<(), Fail> {
        let cases: [(&[u8], &str); 3] = [
            (
                SAMPLE,
                "ring 2 kind 1 wiring 1\n1 W 0 0 7\n2 T 0\n3 R 1 1\n4 D 1\n5 T 1\n6 R 2 1\n7 D 0\n8 D 1\n9 T 1\n10 D 0\nend 10 34\n",
            ),
            (
                MARKS,
                "ring 4 kind 2 wiring 2\n1 W 0 0 300-LED01B\n2 T 0\n3 P 300\n4 D 1\n5 R 1 1\n6 C 0\n7 N 1 0\n8 T 1\n9 P 1\n10 D 2\n11 G 0\nend 11 45\n",
            ),
            (
                DAMAGED,
                "ring 2 kind 1 wiring 1\n1 W 0 0 7\n2 T 0\nbad N 23 18 3\n",
            ),
        ];
        for (input, expected) in cases {
            assert_eq!(rt; list(rt.alloc(), input)?.as_str(), expected);
        }
        Ok(())
    }

    #[test]
    fn a_bad_header_is_all_that_is_printed(rt: HostRuntime) -> Result<(), Fail> {
        let cases: [(&[u8], &str); 5] = [
            (&[], "bad N 21 0 0\n"),
            (&[9], "bad S 25 0 0\n"),
            (&[2, 1, 0x80, 0x80, 0x80], "bad N 22 2 0\n"),
            (&[2, 1, 1, 0, 0], "bad V 26 3 0\n"),
            (b"\x02\x02\x01\x00\x00abcdef", "bad V 27 3 0\n"),
        ];
        for (input, expected) in cases {
            assert_eq!(rt; list(rt.alloc(), input)?.as_str(), expected);
        }
        Ok(())
    }

    // A schedule of exactly as many bytes as are read: a read and turns behind the header.
    fn longest(heap: Global) -> Result<Vec<u8>, AllocError> {
        let mut input = Vec::new(heap);
        input.extend_from_slice(&[2, 1, 1, 0, 0, 0, 0, 2, 0, 0])?;
        for _ in 0..32_763 {
            input.extend_from_slice(&[4, 0])?;
        }
        Ok(input)
    }

    #[test]
    fn the_longest_input_is_listed(rt: HostRuntime) -> Result<(), Fail> {
        let mut input = longest(rt.alloc())?;
        assert_eq!(rt; input.len(), MOST_BYTES);
        let text = list(rt.alloc(), input.as_slice())?;
        assert!(rt; text.as_str().ends_with("\n32764 T 0\nend 32764 65536\n"));
        input.push(0)?;
        assert_eq!(rt;
            list(rt.alloc(), input.as_slice())?.as_str(),
            "bad S 20 0 0\n"
        );
        Ok(())
    }
}
