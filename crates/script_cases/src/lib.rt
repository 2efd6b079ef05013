// Scripts, line by line, with the answers that they must get.
#![tactic(auto)]

#[cfg(test)]
mod tests {
    use lines::{Downlink, Uplink};
    use replies::{Cause, Reply, Shortfall};
    use script::{Request, parse, read_line};
    use std::alloc::{AllocError, Global};
    use std::process::Abort;
    use std::test::Fail;
    use terminal::Terminal;

    fn write_line(out: &mut String, heap: Global, reply: &Reply) -> Result<(), AllocError> {
        let line = reply.line(heap)?;
        out.push_str(line.as_str())?;
        out.push_str("\n")
    }

    // All that a script is answered.
    fn transcript(heap: Global, script: &[u8]) -> Result<String, AllocError> {
        let mut out = String::new(heap);
        let mut terminal = Terminal::new(heap);
        for byte in script {
            if let Some(reply) = terminal.take(*byte) {
                write_line(&mut out, heap, &reply)?;
            }
        }
        if let Some(reply) = terminal.end() {
            write_line(&mut out, heap, &reply)?;
        }
        Ok(out)
    }

    // A script is answered so.
    fn assert_answers(
        rt: &(impl AllocGlobal + Abort),
        script: &[u8],
        answers: &str,
    ) -> Result<(), Fail> {
        let text = transcript(rt.alloc(), script)?;
        assert_eq!(rt; text.as_str(), answers);
        Ok(())
    }

    // A reply is printed so.
    fn assert_line(rt: &(impl AllocGlobal + Abort), reply: Reply, line: &str) -> Result<(), Fail> {
        let text = reply.line(rt.alloc())?;
        assert_eq!(rt; text.as_str(), line);
        Ok(())
    }

    #[test]
    fn a_full_line_takes_no_more(rt: HostRuntime) -> Result<(), Fail> {
        assert_answers(
            &rt,
            b"n 2\np 0 0 65535\np 0 1 1\np 1 0 1\np 1 1 1\no 0 0\n",
            "ok\nok\nno 7\nno 7\nok\nowed 65535\n",
        )
    }

    #[test]
    fn numbers_have_up_to_five_digits(rt: HostRuntime) -> Result<(), Fail> {
        assert_answers(
            &rt,
            b"n 00003\np 0 00001 00007\no 00 1\np 0 1 000007\np 0 1 65536\np 0 1 99999\np 65535 0 1\n",
            "ok\nok\nowed 7\nno 19\nno 19\nno 19\nno 4\n",
        )
    }

    #[test]
    fn one_space_before_each_number(rt: HostRuntime) -> Result<(), Fail> {
        assert_answers(
            &rt,
            b"n 3\np 0  1 7\np 0 1 7 \n p 0 1 7\np\t0 1 7\np0 1 7\no 0 1\n",
            "ok\nno 19\nno 19\nno 19\nno 19\nno 19\nowed 0\n",
        )
    }

    #[test]
    fn letters_and_as_many_numbers(rt: HostRuntime) -> Result<(), Fail> {
        assert_answers(
            &rt,
            b"n 3\np\np 0 1\np 0 1 7 7\nP 0 1 7\npp 0 1 7\nx\np 0 1 -7\np 0 1 +7\no 0\n7\no 0 1\n",
            "ok\nno 19\nno 19\nno 19\nno 19\nno 19\nno 19\nno 19\nno 19\nno 19\nno 19\nowed 0\n",
        )
    }

    #[test]
    fn lines_are_bytes(rt: HostRuntime) -> Result<(), Fail> {
        assert_answers(
            &rt,
            b"n 3\r\nn 3\n\n\xff\xfe\np 0 1 7\0\n\0\n\xc3\xa9 0 1 7\np 0 1 7\no 0 1\r\no 0 1",
            "no 19\nok\nno 19\nno 19\nno 19\nno 19\nno 19\nok\nno 19\nowed 7\n",
        )
    }

    #[test]
    fn a_last_line_needs_no_line_feed(rt: HostRuntime) -> Result<(), Fail> {
        assert_answers(&rt, b"", "")?;
        assert_answers(&rt, b"\n", "no 19\n")?;
        assert_answers(&rt, b"n 1", "ok\n")?;
        assert_answers(&rt, b"n 1\n", "ok\n")?;
        assert_answers(&rt, b"n 1\n\n", "ok\nno 19\n")
    }

    #[test]
    fn n_comes_first_and_once(rt: HostRuntime) -> Result<(), Fail> {
        assert_answers(
            &rt,
            b"p 0 0 1\no 0 0\nn 0\nn 17\nn 65536\nm\nn 16\nn 16\nn 0\np 15 15 1\nn 3\no 15 15\n",
            "no 19\nno 19\nno 1\nno 1\nno 19\nno 19\nok\nno 19\nno 19\nok\nno 19\nowed 1\n",
        )
    }

    #[test]
    fn declines_in_their_order(rt: HostRuntime) -> Result<(), Fail> {
        assert_answers(
            &rt,
            b"n 2\np 2 0 0\np 0 2 0\np 0 0 0\nw 2 0 1\nw 0 0 0\nw 0 0 1\np 0 0 3\nw 0 0 4\nw 0 0 3\no 0 0\no 0 2\n",
            "ok\nno 4\nno 4\nno 5\nno 4\nno 5\nno 8\nok\nno 8\nok\nowed 0\nno 4\n",
        )
    }

    // A command of 80 bytes is taken apart, and one of 81 is not; as a number neither word can be read.
    #[test]
    fn eighty_bytes_and_no_more(rt: HostRuntime) {
        let mut line = [b'0'; 81];
        line[0] = b'n';
        line[1] = b' ';
        assert!(rt; parse(&line[0..80]).is_some());
        assert!(rt; parse(&line[0..81]).is_none());
        assert!(rt; read_line(&line[0..80]).is_none());
        assert!(rt; read_line(&line[0..7]).is_some());
        assert!(rt; read_line(&line[0..8]).is_none());
    }

    #[test]
    fn a_very_long_line(rt: HostRuntime) -> Result<(), Fail> {
        let mut terminal = Terminal::new(rt.alloc());
        for byte in b"n 3\np 0 1 7 " {
            let _ = terminal.take(*byte);
        }
        for _ in 0..100_000 {
            assert_eq!(rt; terminal.take(b'0'), None);
        }
        assert_eq!(rt; terminal.take(b'\n'), Some(Reply::No(19)));
        assert_eq!(rt; terminal.end(), None);
        for byte in b"o 0 1" {
            assert_eq!(rt; terminal.take(*byte), None);
        }
        assert_eq!(rt; terminal.end(), Some(Reply::Owed(0)));
        assert_line(&rt, Reply::Owed(0), "owed 0")
    }

    #[test]
    fn every_command_is_read(rt: HostRuntime) {
        assert!(rt; matches!(read_line(b"n 16"), Some(Request::Lines(16))));
        assert!(rt;
            matches!(
                read_line(b"f 1 2 3 4"),
                Some(Request::Fault {
                    up: Uplink(1),
                    down: Downlink(2),
                    most: 3,
                    from: 4
                })
            )
        );
        assert!(rt;
            matches!(
                read_line(b"w 1 2 3"),
                Some(Request::Withdraw {
                    up: Uplink(1),
                    down: Downlink(2),
                    units: 3
                })
            )
        );
        assert!(rt; matches!(read_line(b"m"), Some(Request::Plan)));
        assert!(rt; matches!(read_line(b"s"), Some(Request::Step)));
        assert!(rt; matches!(read_line(b"r 65535"), Some(Request::Run(65535))));
        assert!(rt; matches!(read_line(b"d"), Some(Request::Drop)));
    }

    #[test]
    fn answer_lines(rt: HostRuntime) -> Result<(), Fail> {
        let plan = Reply::Planned {
            modes: 3,
            length: 65535,
            letter: 'K',
        };
        assert_line(&rt, plan, "plan 3 65535 K")?;
        let whole = Reply::Mode {
            number: 0,
            dwell: 1,
            short: None,
        };
        assert_line(&rt, whole, "mode 0 1")?;
        let short = Reply::Mode {
            number: 1,
            dwell: 10,
            short: Some(Shortfall {
                up: Uplink(1),
                down: Downlink(2),
                missing: 3,
                total: 4,
            }),
        };
        assert_line(&rt, short, "mode 1 10 short 1 2 3 4")
    }

    #[test]
    fn runs_and_their_causes(rt: HostRuntime) -> Result<(), Fail> {
        for (cause, line) in [
            (Cause::End, "ran 12 end"),
            (Cause::Short, "ran 12 short"),
            (Cause::Stop, "ran 12 stop"),
            (Cause::Budget, "ran 12 budget"),
        ] {
            assert_line(&rt, Reply::Ran { count: 12, cause }, line)?;
        }
        Ok(())
    }
}
