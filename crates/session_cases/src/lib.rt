// Sessions over both switches and both engines: lists of calls, with the answers that they must get.
#![tactic(auto)]

#[cfg(test)]
mod tests {
    use driver::DriverDecline;
    use kuhn::Kuhn;
    use law::{Answer, Call, Cause, PlanSize, RunEnd, SessionDecline, Shortfall, Step};
    use layered::Layered;
    use ledger::perform;
    use lines::{Downlink, Line, Uplink};
    use matching::Engine;
    use owed::OwedDecline;
    use simulator::{FaultRule, Simulator, add_rule};
    use std::alloc::Global;
    use std::process::Abort;
    use std::test::Fail;
    use switch::{Switch, SwitchDecline};

    // The rows 2 1 0, 0 1 2, 1 0 0 as reservations of station 7.
    const THREE_BEAMS: [u8; 30] = [
        0, 0, 0, 2, 0, 7, 0, 1, 0, 1, 0, 7, 1, 1, 0, 1, 0, 7, 1, 2, 0, 2, 0, 7, 2, 0, 0, 1, 0, 7,
    ];

    // The calls are answered so, with a buffer beside them.
    fn performs<S: Switch + Drop, E: Engine + Drop>(
        rt: &impl Abort,
        heap: Global,
        switch: S,
        engine: E,
        calls: &[Call<'_>],
        expected: &[Answer],
        out: &mut [u8],
    ) {
        let mut answers = [Answer::Accepted; 20];
        let _ = perform(heap, switch, engine, calls, &mut answers, out);
        assert!(rt; calls.len() == expected.len());
        for (given, wanted) in answers.iter().zip(expected.iter()) {
            assert_eq!(rt; *given, *wanted);
        }
    }

    // Crosspoint (1, 2) carries nothing from clock 1 on.
    fn faulty_simulator() -> Result<Simulator, Fail> {
        let mut switch = simulator::make(3, 65535);
        let rule = FaultRule {
            up: Uplink(1),
            down: Downlink(2),
            most: 0,
            from: 1,
        };
        add_rule(&mut switch, rule)?;
        Ok(switch)
    }

    fn stepped(number: usize, dwell: u16, short: Option<Shortfall>) -> Answer {
        Answer::Stepped(Step {
            number,
            dwell,
            short,
        })
    }

    fn planned(modes: usize, length: u32) -> Answer {
        Answer::Planned(PlanSize { modes, length })
    }

    fn ran(count: u16, cause: Cause) -> Answer {
        Answer::Ran(RunEnd { count, cause })
    }

    // The switch has no room for the mode of this number.
    fn no_room(number: usize) -> Answer {
        let switch = SwitchDecline::NoRoom;
        let decline = DriverDecline { switch };
        Answer::Declined(SessionDecline::Mode { number, decline })
    }

    #[test]
    fn a_fault_and_a_new_plan(rt: HostRuntime) -> Result<(), Fail> {
        let (up, down) = (Uplink(1), Downlink(2));
        let short = Shortfall {
            up,
            down,
            missing: 1,
            total: 1,
        };
        let calls = [
            Call::Batch(&THREE_BEAMS),
            Call::Plan,
            Call::Step,
            Call::Step,
            Call::ModesLeft,
            Call::LengthLeft,
            Call::Step,
            Call::Step,
            Call::Owed { up, down },
            Call::Plan,
        ];
        let expected = [
            Answer::Accepted,
            planned(3, 3),
            stepped(0, 1, None),
            stepped(1, 1, Some(short)),
            Answer::Units(1),
            Answer::Units(1),
            stepped(2, 1, None),
            Answer::Declined(SessionDecline::NoPlan),
            Answer::Units(1),
            planned(1, 1),
        ];
        performs(
            &rt,
            rt.alloc(),
            faulty_simulator()?,
            Kuhn,
            &calls,
            &expected,
            &mut [],
        );
        Ok(())
    }

    #[test]
    fn a_step_wants_room(rt: HostRuntime) {
        let five_units = [0, 0, 0, 5, 0, 7];
        let calls = [
            Call::Batch(&five_units),
            Call::Plan,
            Call::Step,
            Call::Run(3),
            Call::Busiest,
        ];
        let full = [
            Answer::Accepted,
            planned(1, 5),
            no_room(0),
            no_room(0),
            Answer::Units(5),
        ];
        performs(
            &rt,
            rt.alloc(),
            simulator::make(1, 0),
            Kuhn,
            &calls,
            &full,
            &mut [],
        );
        let roomy = [
            Answer::Accepted,
            planned(1, 5),
            stepped(0, 5, None),
            Answer::Declined(SessionDecline::NoPlan),
            Answer::Units(0),
        ];
        performs(
            &rt,
            rt.alloc(),
            simulator::make(1, 1),
            Kuhn,
            &calls,
            &roomy,
            &mut [],
        );
    }

    // The mode that is open at the making has cost its room, and is voided.
    #[test]
    fn a_run_stops_where_room_ends(rt: HostRuntime) -> Result<(), Fail> {
        let mut switch = simulator::make(3, 3);
        switch.open(9)?;
        switch.grant(Uplink(0), Downlink(0), 9)?;
        let calls = [
            Call::Run(0),
            Call::Batch(&THREE_BEAMS),
            Call::Plan,
            Call::Run(0),
            Call::Run(9),
            Call::Step,
            Call::Drop,
            Call::Busiest,
        ];
        let expected = [
            Answer::Declined(SessionDecline::NoPlan),
            Answer::Accepted,
            planned(3, 3),
            Answer::Declined(SessionDecline::NoBudget),
            ran(2, Cause::Stop),
            no_room(2),
            Answer::Accepted,
            Answer::Units(1),
        ];
        performs(&rt, rt.alloc(), switch, Layered, &calls, &expected, &mut []);
        Ok(())
    }

    #[test]
    fn a_run_tells_why_it_stopped(rt: HostRuntime) -> Result<(), Fail> {
        let calls = [
            Call::Batch(&THREE_BEAMS),
            Call::Plan,
            Call::Run(1),
            Call::Run(9),
            Call::Run(1),
        ];
        let expected = [
            Answer::Accepted,
            planned(3, 3),
            ran(1, Cause::Budget),
            ran(1, Cause::Short),
            ran(1, Cause::End),
        ];
        performs(
            &rt,
            rt.alloc(),
            faulty_simulator()?,
            Kuhn,
            &calls,
            &expected,
            &mut [],
        );
        Ok(())
    }

    // The second of these records books on a downlink that is not there.
    #[test]
    fn a_batch_is_posted_whole_or_not_at_all(rt: HostRuntime) {
        let bad = [0, 0, 0, 1, 0, 1, 0, 2, 0, 1, 1, 0];
        let decline = SessionDecline::Record {
            number: 1,
            station: 256,
            decline: OwedDecline::LineAbove(Line::Down(Downlink(2))),
        };
        let calls = [
            Call::Batch(b""),
            Call::Batch(&bad[0..11]),
            Call::Batch(&bad),
            Call::Busiest,
            Call::Batch(&bad[0..6]),
            Call::Plan,
            Call::Batch(b""),
        ];
        let expected = [
            Answer::Accepted,
            Answer::Declined(SessionDecline::PartRecord),
            Answer::Declined(decline),
            Answer::Units(0),
            Answer::Accepted,
            planned(1, 1),
            Answer::Declined(SessionDecline::PlanStands),
        ];
        performs(
            &rt,
            rt.alloc(),
            simulator::make(2, 9),
            Kuhn,
            &calls,
            &expected,
            &mut [],
        );
    }

    #[test]
    fn the_modes_left_want_a_long_buffer(rt: HostRuntime) {
        let mut buffer = [9u8; 103];
        let calls = [
            Call::Write,
            Call::Batch(&THREE_BEAMS),
            Call::Plan,
            Call::Write,
            Call::Step,
            Call::Write,
        ];
        let expected = [
            Answer::Declined(SessionDecline::NoPlan),
            Answer::Accepted,
            planned(3, 3),
            Answer::Declined(SessionDecline::ShortBuffer),
            stepped(0, 1, None),
            Answer::Declined(SessionDecline::ShortBuffer),
        ];
        let switch = simulator::make(3, 9);
        performs(
            &rt,
            rt.alloc(),
            switch,
            Kuhn,
            &calls,
            &expected,
            &mut buffer,
        );
        assert!(rt; buffer[0] == 9 && buffer[102] == 9);
    }

    #[test]
    fn the_modes_left_as_records(rt: HostRuntime) {
        let mut buffer = [9u8; 105];
        let calls = [
            Call::Batch(&THREE_BEAMS),
            Call::Plan,
            Call::Step,
            Call::Write,
        ];
        let expected = [
            Answer::Accepted,
            planned(3, 3),
            stepped(0, 1, None),
            Answer::Wrote(104),
        ];
        let switch = simulator::make(3, 9);
        performs(
            &rt,
            rt.alloc(),
            switch,
            Kuhn,
            &calls,
            &expected,
            &mut buffer,
        );
        assert!(rt; buffer[2] == 3 && buffer[54] == 3 && buffer[104] == 9);
    }

    // The records of a plan, as a report in which uplink 1 carries nothing.
    #[test]
    fn reports_carry_what_they_say(rt: HostRuntime) {
        let mut file = [0u8; 156];
        let calls = [Call::Batch(&THREE_BEAMS), Call::Plan, Call::Write];
        let written = [Answer::Accepted, planned(3, 3), Answer::Wrote(156)];
        let switch = simulator::make(3, 9);
        performs(&rt, rt.alloc(), switch, Kuhn, &calls, &written, &mut file);
        file[9] = 0;
        file[61] = 0;
        file[113] = 0;
        let runs = [
            Call::Batch(&THREE_BEAMS),
            Call::Plan,
            Call::Run(9),
            Call::Run(9),
            Call::Run(9),
            Call::Busiest,
        ];
        let carried = [
            Answer::Accepted,
            planned(3, 3),
            ran(1, Cause::Short),
            ran(1, Cause::Short),
            ran(1, Cause::End),
            Answer::Units(3),
        ];
        let reports = telemetry::make(3, &file);
        performs(&rt, rt.alloc(), reports, Kuhn, &runs, &carried, &mut []);
    }
}
