// Grants and whole modes on a simulator.
use super::shared::{carried, join};
use driver::DriverDecline;
use lines::{Decline, Downlink, Line, Place, Uplink};
use schedule::Mode;
use switch::{Outcome, Switch, SwitchDecline};

// Dwell 2, and one unit for uplink 0 to downlink 1.
fn one_grant() -> Mode {
    let mut row = [None; 16];
    row[0] = Some(join(1, 1));
    Mode { dwell: 2, row }
}

#[test]
fn a_mode_needs_room(rt: HostRuntime) {
    let mut s = simulator::make(2, 0);
    let full = DriverDecline {
        switch: SwitchDecline::NoRoom,
    };
    assert_eq!(rt; full.number(), 13);
    assert_eq!(rt; steps::run_mode(&mut s, &one_grant()), Err(full));
    assert_eq!(rt; s.clock(), 0);
}

#[test]
fn with_room_for_one_it_runs_once(rt: HostRuntime) {
    let mut s = simulator::make(2, 1);
    let mut outcomes = [None; 16];
    outcomes[0] = Some(Outcome {
        join: join(1, 1),
        carried: 1,
    });
    assert_eq!(rt; steps::run_mode(&mut s, &one_grant()), Ok(outcomes));
    assert_eq!(rt; s.clock(), 2);
    assert_eq!(rt; s.room(), 0);
    assert_eq!(rt; carried(&s), Ok(1));
    let full = DriverDecline {
        switch: SwitchDecline::NoRoom,
    };
    assert_eq!(rt; steps::run_mode(&mut s, &one_grant()), Err(full));
}

#[test]
fn a_mode_that_is_open_is_in_the_way(rt: HostRuntime) {
    let mut s = simulator::make(2, 0);
    assert_eq!(rt; s.open(0), Err(SwitchDecline::BadUnits));
    assert_eq!(rt; s.open(1), Err(SwitchDecline::NoRoom));
    let mut s = simulator::make(2, 1);
    assert_eq!(rt; s.open(7), Ok(()));
    assert_eq!(rt; s.open(0), Err(SwitchDecline::ModeOpen));
    let open = DriverDecline {
        switch: SwitchDecline::ModeOpen,
    };
    assert_eq!(rt; steps::run_mode(&mut s, &one_grant()), Err(open));
    assert_eq!(rt; s.dwell(), Some(7));
}

#[test]
fn a_mode_that_breaks_the_rules_is_voided(rt: HostRuntime) {
    let mut s = simulator::make(2, 3);
    let mut mode = one_grant();
    mode.row[1] = Some(join(1, 1));
    let taken = DriverDecline {
        switch: SwitchDecline::LineTaken(Line::Down(Downlink(1))),
    };
    assert_eq!(rt; steps::run_mode(&mut s, &mode), Err(taken));
    assert_eq!(rt; s.dwell(), None);
    assert_eq!(rt; s.room(), 2);
    assert_eq!(rt; s.clock(), 0);
}

#[test]
fn units_are_within_the_dwell(rt: HostRuntime) {
    let mut s = simulator::make(2, 1);
    assert_eq!(rt;
        s.grant(Uplink(0), Downlink(0), 3),
        Err(SwitchDecline::NoMode)
    );
    assert_eq!(rt; s.open(3), Ok(()));
    assert_eq!(rt; s.grant(Uplink(0), Downlink(0), 3), Ok(()));
    assert_eq!(rt;
        s.grant(Uplink(1), Downlink(1), 4),
        Err(SwitchDecline::BadUnits)
    );
    assert_eq!(rt;
        s.grant(Uplink(1), Downlink(1), 0),
        Err(SwitchDecline::BadUnits)
    );
    assert_eq!(rt; SwitchDecline::BadUnits.number(), 5);
    assert_eq!(rt; s.granted(Uplink(0)), Ok(Some(join(0, 3))));
    assert_eq!(rt; s.granted(Uplink(1)), Ok(None));
}

#[test]
fn a_line_has_one_grant(rt: HostRuntime) {
    let mut s = simulator::make(3, 1);
    assert_eq!(rt; s.open(1), Ok(()));
    assert_eq!(rt; s.grant(Uplink(0), Downlink(1), 1), Ok(()));
    let down = SwitchDecline::LineTaken(Line::Down(Downlink(1)));
    assert_eq!(rt; s.grant(Uplink(1), Downlink(1), 1), Err(down));
    assert_eq!(rt; down.number(), 14);
    assert_eq!(rt; down.place(), Place::OnLine(Line::Down(Downlink(1))));
    let up = SwitchDecline::LineTaken(Line::Up(Uplink(0)));
    assert_eq!(rt; s.grant(Uplink(0), Downlink(1), 1), Err(up));
    let above = SwitchDecline::LineAbove(Line::Up(Uplink(3)));
    assert_eq!(rt; s.grant(Uplink(3), Downlink(9), 0), Err(above));
    assert_eq!(rt; above.number(), 4);
}
