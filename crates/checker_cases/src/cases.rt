// Files without records, parked uplinks, and files at the limits.
use super::matrices::owes;
use checker::{CheckDecline, Checked, check as check_file};
use lines::{Crosspoint, Downlink, Uplink};
use owed::Owed;
use std::test::Fail;

// Two lines: the longest dwell, with both uplinks parked.
const PARKED: [u8; 52] = [
    255, 255, 2, 0, 254, 0, 0, 254, 0, 0, 255, 0, 0, 255, 0, 0, 255, 0, 0, 255, 0, 0, 255, 0, 0,
    255, 0, 0, 255, 0, 0, 255, 0, 0, 255, 0, 0, 255, 0, 0, 255, 0, 0, 255, 0, 0, 255, 0, 0, 255, 0,
    0,
];

#[test]
fn nothing_serves_nothing(rt: HostRuntime) -> Result<(), Fail> {
    let owed = Owed::new(2)?;
    assert_eq!(rt;
        check_file(&owed, &[]),
        Ok(Checked {
            length: 0,
            shortest: true,
        })
    );
    Ok(())
}

#[test]
fn nothing_serves_no_unit(rt: HostRuntime) -> Result<(), Fail> {
    let owed = owes(3, &[(2, 1, 1)])?;
    assert_eq!(rt;
        check_file(&owed, &[]),
        Err(CheckDecline::Differs(Crosspoint {
            up: Uplink(2),
            down: Downlink(1),
        }))
    );
    Ok(())
}

#[test]
fn parked_uplinks_carry_nothing(rt: HostRuntime) -> Result<(), Fail> {
    let owed = Owed::new(2)?;
    assert_eq!(rt;
        check_file(&owed, &PARKED),
        Ok(Checked {
            length: 65535,
            shortest: false,
        })
    );
    let owed = owes(2, &[(0, 0, 1)])?;
    assert_eq!(rt;
        check_file(&owed, &PARKED),
        Err(CheckDecline::Differs(Crosspoint {
            up: Uplink(0),
            down: Downlink(0),
        }))
    );
    Ok(())
}

// On one line uplink 1 is none, so it may not be parked; the record says two lines too.
#[test]
fn another_number_of_lines(rt: HostRuntime) -> Result<(), Fail> {
    let owed = Owed::new(1)?;
    let mut file = PARKED;
    assert_eq!(rt; check_file(&owed, &file), Err(CheckDecline::Improper(0)));
    file[2] = 1;
    assert_eq!(rt; check_file(&owed, &file), Err(CheckDecline::Improper(0)));
    file[7] = 255;
    assert_eq!(rt;
        check_file(&owed, &file),
        Ok(Checked {
            length: 65535,
            shortest: false,
        })
    );
    Ok(())
}

#[test]
fn a_part_of_a_record(rt: HostRuntime) -> Result<(), Fail> {
    let owed = Owed::new(2)?;
    assert_eq!(rt; check_file(&owed, &PARKED[0..51]), Err(CheckDecline::Size));
    assert_eq!(rt; check_file(&owed, &PARKED[0..1]), Err(CheckDecline::Size));
    Ok(())
}

// The longest schedule that there is, and one record more.
#[test]
fn the_most_records(rt: HostRuntime) -> Result<(), Fail> {
    let owed = Owed::new(2)?;
    let mut file = Vec::new(rt.alloc());
    for _ in 0..65535 {
        file.extend_from_slice(&PARKED)?;
    }
    assert_eq!(rt;
        check_file(&owed, file.as_slice()),
        Ok(Checked {
            length: 65535 * 65535,
            shortest: false,
        })
    );
    file.extend_from_slice(&PARKED)?;
    assert_eq!(rt; check_file(&owed, file.as_slice()), Err(CheckDecline::Size));
    Ok(())
}
