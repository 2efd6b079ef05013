// Telemetry switches over files.
use super::shared::{carried, run_units};
use lines::Decline;
use std::test::Fail;
use switch::{Switch, SwitchDecline};
use telemetry::TelemetryDecline;

// Two records: uplink 0 carried 258 units to downlink 1, and then 3 units to downlink 0.
fn two_records() -> [u8; 104] {
    let mut file = [0; 104];
    file[4] = 1;
    file[5] = 1;
    file[6] = 2;
    file[52 + 6] = 3;
    file
}

#[test]
fn each_open_takes_up_the_next_record(rt: HostRuntime) {
    let file = two_records();
    let mut s = telemetry::make(2, &file);
    assert_eq!(rt; s.room(), 2);
    assert_eq!(rt; run_units(&mut s, 300), Ok(()));
    assert_eq!(rt; carried(&s), Ok(258));
    assert_eq!(rt; run_units(&mut s, 300), Ok(()));
    assert_eq!(rt; carried(&s), Ok(258));
    assert_eq!(rt; run_units(&mut s, 300), Err(SwitchDecline::NoRoom));
}

#[test]
fn no_more_is_carried_than_granted(rt: HostRuntime) {
    let file = two_records();
    let mut s = telemetry::make(2, &file);
    assert_eq!(rt; run_units(&mut s, 7), Ok(()));
    assert_eq!(rt; carried(&s), Ok(7));
}

#[test]
fn a_file_is_whole_records(rt: HostRuntime) {
    let file = two_records();
    let short = &file[0..103];
    assert_eq!(rt;
        telemetry::check(2, short),
        Err(TelemetryDecline::PartRecord)
    );
    assert_eq!(rt; TelemetryDecline::PartRecord.number(), 2);
    assert_eq!(rt;
        telemetry::check(0, short),
        Err(TelemetryDecline::LinesOutside)
    );
    assert_eq!(rt; telemetry::check(2, &file), Ok(()));
    let s = telemetry::make(2, short);
    assert_eq!(rt; s.lines(), 1);
    assert_eq!(rt; s.room(), 0);
}

#[test]
fn an_empty_file_has_no_room(rt: HostRuntime) {
    assert_eq!(rt; telemetry::make(16, &[]).room(), 0);
}

#[test]
fn a_long_file_is_read_in_part(rt: HostRuntime) -> Result<(), Fail> {
    let file = vec![in rt.alloc(); 0u8; 52 * 65536]?;
    assert_eq!(rt; telemetry::check(16, &file), Ok(()));
    let s = telemetry::make(16, &file);
    assert_eq!(rt; s.room(), 65535);
    assert_eq!(rt; s.lines(), 16);
    Ok(())
}
