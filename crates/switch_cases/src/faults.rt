// Fault rules of a simulator.
use super::shared::{carried, run_units};
use lines::{Decline, Downlink, Line, Uplink};
use simulator::{FaultRule, RuleDecline, SimulatorDecline};
use switch::Switch;

fn rule(most: u16, from: u64) -> FaultRule {
    FaultRule {
        up: Uplink(0),
        down: Downlink(1),
        most,
        from,
    }
}

#[test]
fn the_smallest_limit_holds_from_its_time_on(rt: HostRuntime) {
    let mut s = simulator::make(2, 3);
    assert_eq!(rt; simulator::add_rule(&mut s, rule(2, 9)), Ok(()));
    assert_eq!(rt; simulator::add_rule(&mut s, rule(5, 9)), Ok(()));
    assert_eq!(rt; simulator::add_rule(&mut s, rule(0, 19)), Ok(()));
    assert_eq!(rt; run_units(&mut s, 9), Ok(()));
    assert_eq!(rt; carried(&s), Ok(9));
    assert_eq!(rt; run_units(&mut s, 9), Ok(()));
    assert_eq!(rt; carried(&s), Ok(11));
    assert_eq!(rt; s.clock(), 18);
    assert_eq!(rt; run_units(&mut s, 9), Ok(()));
    assert_eq!(rt; carried(&s), Ok(13));
}

#[test]
fn there_is_no_thirty_third_rule(rt: HostRuntime) {
    let mut s = simulator::make(2, 1);
    for _ in 0..32 {
        assert_eq!(rt; simulator::add_rule(&mut s, rule(7, 0)), Ok(()));
    }
    assert_eq!(rt;
        simulator::add_rule(&mut s, rule(3, 0)),
        Err(RuleDecline::RulesFull)
    );
    assert_eq!(rt; RuleDecline::RulesFull.number(), 3);
    let far = FaultRule {
        down: Downlink(2),
        ..rule(0, 0)
    };
    let above = RuleDecline::LineAbove(Line::Down(Downlink(2)));
    assert_eq!(rt; simulator::add_rule(&mut s, far), Err(above));
    assert_eq!(rt; above.number(), 4);
    assert_eq!(rt; run_units(&mut s, 9), Ok(()));
    assert_eq!(rt; carried(&s), Ok(7));
}

#[test]
fn bad_lines_make_a_switch_without_room(rt: HostRuntime) {
    assert_eq!(rt; simulator::check(0), Err(SimulatorDecline::LinesOutside));
    assert_eq!(rt; simulator::check(17), Err(SimulatorDecline::LinesOutside));
    assert_eq!(rt; simulator::check(16), Ok(()));
    assert_eq!(rt; SimulatorDecline::LinesOutside.number(), 1);
    let s = simulator::make(17, 9);
    assert_eq!(rt; s.lines(), 1);
    assert_eq!(rt; s.room(), 0);
}
