// Tests of what is read and written; the values expected are worked out by hand.
#![tactic(auto)]

#[cfg(test)]
mod tests {
    use answers::{Answer, Span};
    use commands::{Command, LineError, read_line};
    use numerals::parse_number;
    use refusal::Refusal;
    use std::alloc::Global;
    use std::test::Fail;

    #[test]
    fn numbers(rt: HostRuntime) {
        assert_eq!(rt; parse_number("0"), Some(0));
        assert_eq!(rt; parse_number("0x0"), Some(0));
        assert_eq!(rt; parse_number("007"), Some(7));
        assert_eq!(rt; parse_number("0x00fF"), Some(255));
        assert_eq!(rt; parse_number("18446744073709551615"), Some(u64::MAX));
        assert_eq!(rt; parse_number("0xffffffffffffffff"), Some(u64::MAX));
    }

    #[test]
    fn no_numbers(rt: HostRuntime) {
        for word in [
            "",
            "0x",
            "0X1",
            "+1",
            "0x+1",
            "-1",
            "12g",
            "18446744073709551616",
            "0x10000000000000000",
        ] {
            assert_eq!(rt; parse_number(word), None, "{}", word);
        }
    }

    // What a line is read as, in a word.
    fn kind(heap: Global, line: &[u8]) -> Result<&'static str, LineError> {
        match read_line(heap, line) {
            Ok(None) => Ok("nothing"),
            Ok(Some(_)) => Ok("command"),
            Err(LineError::Malformed) => Ok("malformed"),
            Err(error) => Err(error),
        }
    }

    #[test]
    fn idle_lines(rt: HostRuntime) -> Result<(), Fail> {
        for line in ["", "   ", "#", "# add 1 2", "#\t\r"] {
            assert_eq!(rt; kind(rt.alloc(), line.as_bytes())?, "nothing", "{}", line);
        }
        assert_eq!(rt; kind(rt.alloc(), b"#\xff")?, "malformed");
        Ok(())
    }

    #[test]
    fn command_lines(rt: HostRuntime) -> Result<(), Fail> {
        for line in [
            "add 1 2",
            "host 0x1000000",
            "bytes 0 16777216",
            "frames 0",
            "frames 0 4294967295",
            "insert 1 ram 2 3 4",
            "insert 1 window 2 3",
        ] {
            assert_eq!(rt; kind(rt.alloc(), line.as_bytes())?, "command", "{}", line);
        }
        Ok(())
    }

    // Blanks, tabs and ends of line; words and their number; bounds.
    const DAMAGED: [&'static str; 21] = [
        "add 1  2",
        " add 1 2",
        "add 1 2 ",
        "add\t1 2",
        "add 1 2\r",
        " # late",
        "add 1",
        "add 1 2 3",
        "ADD 1 2",
        "add 1 two",
        "frames",
        "frames 0 1 ",
        "translate 0 1 1",
        "insert 1 2 3",
        "insert 1 ram 2 3",
        "insert 1 ram 2 3 4 5",
        "insert 1 window 2 3 4",
        "host 0x1000001",
        "bytes 0 16777217",
        "find 18446744073709551616",
        "frames 0 4294967296",
    ];

    #[test]
    fn damaged_lines(rt: HostRuntime) -> Result<(), Fail> {
        for line in DAMAGED {
            assert_eq!(rt; kind(rt.alloc(), line.as_bytes())?, "malformed", "{}", line);
        }
        Ok(())
    }

    #[test]
    fn fields(rt: HostRuntime) -> Result<(), Fail> {
        let command = read_line(rt.alloc(), b"insert 1 ram 0x02 3 0xA")?;
        let Some(
            Command::InsertRam {
                room,
                start,
                len,
                place,
            },
        ) = command
        else {
            return Err(Fail::new("no insert"));
        };
        assert_eq!(rt; [room, start, len, place], [1, 2, 3, 10]);
        Ok(())
    }

    #[test]
    fn entries(rt: HostRuntime) -> Result<(), Fail> {
        let command = read_line(rt.alloc(), b"frames 0x1000 1 0x2 3")?;
        let Some(Command::Frames { base, entries }) = command else {
            return Err(Fail::new("no frames"));
        };
        assert_eq!(rt; base, 4096);
        assert_eq!(rt; entries.as_slice(), [1, 2, 3].as_slice());
        Ok(())
    }

    #[test]
    fn plain_answers(rt: HostRuntime) -> Result<(), Fail> {
        let region = Span {
            start: 4096,
            len: 2048,
        };
        for (answer, line) in [
            (Answer::Done, "ok"),
            (Answer::Number(0), "ok 0x0"),
            (Answer::Number(u64::MAX), "ok 0xffffffffffffffff"),
            (Answer::Absent, "none"),
            (Answer::Region(region, Some(10)), "ok 0x1000+0x800 0xa"),
            (Answer::Region(region, None), "ok 0x1000+0x800 none"),
            (Answer::Removed(2, region, None), "ok 0x2 0x1000+0x800 none"),
            (Answer::Checked(Some(21), 21, false), "ok 0x15 0x15 false"),
            (Answer::Checked(None, 1, true), "ok none 0x1 true"),
            (Answer::Error, "error"),
        ] {
            let text = format!(in rt.alloc(); "{answer}")?;
            assert_eq!(rt; text.as_str(), line);
        }
        Ok(())
    }

    #[test]
    fn refusals(rt: HostRuntime) -> Result<(), Fail> {
        for (refusal, line) in [
            (Refusal::NoMemoryRegion, "refused 1 NoMemoryRegion"),
            (Refusal::BadRegion(17), "refused 4 BadRegion 0x11"),
            (
                Refusal::InvalidGuestAddress(32),
                "refused 8 InvalidGuestAddress 0x20",
            ),
            (Refusal::BadPermissions, "refused 14 BadPermissions"),
        ] {
            let answer = Answer::Refused(refusal);
            let text = format!(in rt.alloc(); "{answer}")?;
            assert_eq!(rt; text.as_str(), line);
        }
        Ok(())
    }

    #[test]
    fn long_answers(rt: HostRuntime) -> Result<(), Fail> {
        let heap = rt.alloc();
        let piece = Span { start: 0, len: 16 };
        let reason = Refusal::InvalidGuestAddress(32);
        for (answer, line) in [
            (Answer::Pieces(vec![in heap]?, None), "ok"),
            (
                Answer::Pieces(vec![in heap; piece, piece]?, None),
                "ok 0x0+0x10 0x0+0x10",
            ),
            (
                Answer::Pieces(vec![in heap; piece]?, Some(reason)),
                "ok 0x0+0x10 refused 8 InvalidGuestAddress 0x20",
            ),
            (Answer::Bytes(vec![in heap]?), "ok -"),
            (Answer::Bytes(vec![in heap; 0, 171, 255]?), "ok 00abff"),
        ] {
            let text = format!(in heap; "{answer}")?;
            assert_eq!(rt; text.as_str(), line);
        }
        Ok(())
    }
}
