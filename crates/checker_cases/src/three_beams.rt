// The plan of three beams: written, checked and read back.
use super::matrices::owes;
use checker::{Checked, check as check_file};
use lines::Downlink;
use owed::Owed;
use plan_files::{WriteDecline, read_modes, write_and_read, write_modes};
use schedule::{Join, Mode};
use std::test::Fail;

const fn one(j: u16) -> Option<Join> {
    Some(Join {
        down: Downlink(j),
        units: 1,
    })
}

// One slot with these grants.
fn slot(first: Option<Join>, second: Option<Join>, third: Option<Join>) -> Mode {
    let mut row = [None; 16];
    row[0] = first;
    row[1] = second;
    row[2] = third;
    Mode { dwell: 1, row }
}

// Of the padded rows 2 1 0, 0 1 2 and 1 1 1: the matchings 1 2 0, 0 1 2 and 0 2 1.
fn plan() -> [Mode; 3] {
    [
        slot(one(1), one(2), one(0)),
        slot(one(0), one(1), None),
        slot(one(0), one(2), None),
    ]
}

// The rows 2 1 0, 0 1 2 and 1 0 0.
fn owed() -> Result<Owed, Fail> {
    owes(3, &[(0, 0, 2), (0, 1, 1), (1, 1, 1), (1, 2, 2), (2, 0, 1)])
}

#[test]
fn written_as_records(rt: HostRuntime) {
    let mut out = [7u8; 160];
    assert_eq!(rt; write_modes(3, &plan(), &mut out), Ok(156));
    let second: [u8; 52] = [
        0, 1, 3, 0, 0, 0, 1, 1, 0, 1, 255, 0, 0, 255, 0, 0, 255, 0, 0, 255, 0, 0, 255, 0, 0, 255,
        0, 0, 255, 0, 0, 255, 0, 0, 255, 0, 0, 255, 0, 0, 255, 0, 0, 255, 0, 0, 255, 0, 0, 255, 0,
        0,
    ];
    assert_eq!(rt; &out[52..104], &second[0..52]);
    let rest: [u8; 4] = [7, 7, 7, 7];
    assert_eq!(rt; &out[156..160], &rest[0..4]);
}

#[test]
fn no_room_and_just_enough(rt: HostRuntime) {
    let mut out = [7u8; 156];
    assert_eq!(rt;
        write_modes(3, &plan(), &mut out[0..155]),
        Err(WriteDecline::ShortBuffer)
    );
    assert_eq!(rt; out, [7; 156]);
    assert_eq!(rt; write_modes(3, &plan(), &mut out), Ok(156));
}

#[test]
fn accepted_as_the_shortest(rt: HostRuntime) -> Result<(), Fail> {
    let mut out = [0u8; 156];
    assert_eq!(rt; write_modes(3, &plan(), &mut out), Ok(156));
    assert_eq!(rt;
        check_file(&owed()?, &out)?,
        Checked {
            length: 3,
            shortest: true,
        }
    );
    Ok(())
}

#[test]
fn read_back(rt: HostRuntime) -> Result<(), Fail> {
    let mut out = [0u8; 160];
    assert_eq!(rt; write_modes(3, &plan(), &mut out), Ok(156));
    let file = read_modes(rt.alloc(), &out[0..156])?;
    assert_eq!(rt; file.lines, 3);
    assert_eq!(rt; file.modes.as_slice(), &plan()[0..3]);
    let again = write_and_read(rt.alloc(), 3, file.modes.as_slice(), &mut out)?;
    assert!(rt; again.lines == 3);
    assert_eq!(rt; again.modes.as_slice(), file.modes.as_slice());
    Ok(())
}
