// Every byte of a file of two records, changed to every other value.
use super::matrices::owes;
use checker::{CheckDecline, Checked, check as check_file};
use lines::{Crosspoint, Downlink, Uplink};
use owed::Owed;
use std::process::Abort;
use std::test::Fail;

// Three lines: dwell 300 with grants (0, 1, 300) and (1, 0, 44) and uplink 2 parked, then dwell 1 with grants (0, 0, 1) and (2, 2, 1).
const FILE: [u8; 104] = [
    1, 44, 3, 0, 1, 1, 44, 0, 0, 44, 254, 0, 0, 255, 0, 0, 255, 0, 0, 255, 0, 0, 255, 0, 0, 255, 0,
    0, 255, 0, 0, 255, 0, 0, 255, 0, 0, 255, 0, 0, 255, 0, 0, 255, 0, 0, 255, 0, 0, 255, 0, 0, 0,
    1, 3, 0, 0, 0, 1, 255, 0, 0, 2, 0, 1, 255, 0, 0, 255, 0, 0, 255, 0, 0, 255, 0, 0, 255, 0, 0,
    255, 0, 0, 255, 0, 0, 255, 0, 0, 255, 0, 0, 255, 0, 0, 255, 0, 0, 255, 0, 0, 255, 0, 0,
];

// What the checker is to answer.
#[derive(Clone, Copy)]
enum Expected {
    // A schedule, which is base and step times the byte's value long.
    Length { base: u32, step: u32 },
    // The record that is no mode.
    Improper(usize),
    // The uplink and the downlink of the first crosspoint with other units.
    Differs(u16, u16),
}

// A byte's place, the first and the last of a range of values for it, and what the checker is to answer then.
#[derive(Clone, Copy)]
struct Damage(usize, u8, u8, Expected);

const DAMAGES: [Damage; 125] = [
    Damage(0, 0, 0, Expected::Improper(0)),
    Damage(
        0,
        2,
        255,
        Expected::Length {
            base: 45,
            step: 256,
        },
    ),
    Damage(1, 0, 43, Expected::Improper(0)),
    Damage(1, 45, 255, Expected::Length { base: 257, step: 1 }),
    Damage(2, 0, 2, Expected::Improper(0)),
    Damage(2, 4, 255, Expected::Improper(0)),
    Damage(3, 1, 255, Expected::Improper(0)),
    Damage(4, 0, 0, Expected::Improper(0)),
    Damage(4, 2, 2, Expected::Differs(0, 1)),
    Damage(4, 3, 255, Expected::Improper(0)),
    Damage(5, 0, 0, Expected::Differs(0, 1)),
    Damage(5, 2, 255, Expected::Improper(0)),
    Damage(6, 0, 43, Expected::Differs(0, 1)),
    Damage(6, 45, 255, Expected::Improper(0)),
    Damage(7, 1, 1, Expected::Improper(0)),
    Damage(7, 2, 2, Expected::Differs(1, 0)),
    Damage(7, 3, 255, Expected::Improper(0)),
    Damage(8, 1, 1, Expected::Differs(1, 0)),
    Damage(8, 2, 255, Expected::Improper(0)),
    Damage(9, 0, 0, Expected::Improper(0)),
    Damage(9, 1, 43, Expected::Differs(1, 0)),
    Damage(9, 45, 255, Expected::Differs(1, 0)),
    Damage(10, 0, 253, Expected::Improper(0)),
    Damage(10, 255, 255, Expected::Length { base: 301, step: 0 }),
    Damage(11, 1, 255, Expected::Improper(0)),
    Damage(12, 1, 255, Expected::Improper(0)),
    Damage(13, 0, 254, Expected::Improper(0)),
    Damage(14, 1, 255, Expected::Improper(0)),
    Damage(15, 1, 255, Expected::Improper(0)),
    Damage(16, 0, 254, Expected::Improper(0)),
    Damage(17, 1, 255, Expected::Improper(0)),
    Damage(18, 1, 255, Expected::Improper(0)),
    Damage(19, 0, 254, Expected::Improper(0)),
    Damage(20, 1, 255, Expected::Improper(0)),
    Damage(21, 1, 255, Expected::Improper(0)),
    Damage(22, 0, 254, Expected::Improper(0)),
    Damage(23, 1, 255, Expected::Improper(0)),
    Damage(24, 1, 255, Expected::Improper(0)),
    Damage(25, 0, 254, Expected::Improper(0)),
    Damage(26, 1, 255, Expected::Improper(0)),
    Damage(27, 1, 255, Expected::Improper(0)),
    Damage(28, 0, 254, Expected::Improper(0)),
    Damage(29, 1, 255, Expected::Improper(0)),
    Damage(30, 1, 255, Expected::Improper(0)),
    Damage(31, 0, 254, Expected::Improper(0)),
    Damage(32, 1, 255, Expected::Improper(0)),
    Damage(33, 1, 255, Expected::Improper(0)),
    Damage(34, 0, 254, Expected::Improper(0)),
    Damage(35, 1, 255, Expected::Improper(0)),
    Damage(36, 1, 255, Expected::Improper(0)),
    Damage(37, 0, 254, Expected::Improper(0)),
    Damage(38, 1, 255, Expected::Improper(0)),
    Damage(39, 1, 255, Expected::Improper(0)),
    Damage(40, 0, 254, Expected::Improper(0)),
    Damage(41, 1, 255, Expected::Improper(0)),
    Damage(42, 1, 255, Expected::Improper(0)),
    Damage(43, 0, 254, Expected::Improper(0)),
    Damage(44, 1, 255, Expected::Improper(0)),
    Damage(45, 1, 255, Expected::Improper(0)),
    Damage(46, 0, 254, Expected::Improper(0)),
    Damage(47, 1, 255, Expected::Improper(0)),
    Damage(48, 1, 255, Expected::Improper(0)),
    Damage(49, 0, 254, Expected::Improper(0)),
    Damage(50, 1, 255, Expected::Improper(0)),
    Damage(51, 1, 255, Expected::Improper(0)),
    Damage(
        52,
        1,
        255,
        Expected::Length {
            base: 301,
            step: 256,
        },
    ),
    Damage(53, 0, 0, Expected::Improper(1)),
    Damage(53, 2, 255, Expected::Length { base: 300, step: 1 }),
    Damage(54, 0, 2, Expected::Improper(1)),
    Damage(54, 4, 255, Expected::Improper(1)),
    Damage(55, 1, 255, Expected::Improper(1)),
    Damage(56, 1, 1, Expected::Differs(0, 0)),
    Damage(56, 2, 255, Expected::Improper(1)),
    Damage(57, 1, 255, Expected::Improper(1)),
    Damage(58, 0, 0, Expected::Improper(1)),
    Damage(58, 2, 255, Expected::Improper(1)),
    Damage(59, 0, 253, Expected::Improper(1)),
    Damage(59, 254, 254, Expected::Length { base: 301, step: 0 }),
    Damage(60, 1, 255, Expected::Improper(1)),
    Damage(61, 1, 255, Expected::Improper(1)),
    Damage(62, 0, 0, Expected::Improper(1)),
    Damage(62, 1, 1, Expected::Differs(2, 1)),
    Damage(62, 3, 255, Expected::Improper(1)),
    Damage(63, 1, 255, Expected::Improper(1)),
    Damage(64, 0, 0, Expected::Improper(1)),
    Damage(64, 2, 255, Expected::Improper(1)),
    Damage(65, 0, 254, Expected::Improper(1)),
    Damage(66, 1, 255, Expected::Improper(1)),
    Damage(67, 1, 255, Expected::Improper(1)),
    Damage(68, 0, 254, Expected::Improper(1)),
    Damage(69, 1, 255, Expected::Improper(1)),
    Damage(70, 1, 255, Expected::Improper(1)),
    Damage(71, 0, 254, Expected::Improper(1)),
    Damage(72, 1, 255, Expected::Improper(1)),
    Damage(73, 1, 255, Expected::Improper(1)),
    Damage(74, 0, 254, Expected::Improper(1)),
    Damage(75, 1, 255, Expected::Improper(1)),
    Damage(76, 1, 255, Expected::Improper(1)),
    Damage(77, 0, 254, Expected::Improper(1)),
    Damage(78, 1, 255, Expected::Improper(1)),
    Damage(79, 1, 255, Expected::Improper(1)),
    Damage(80, 0, 254, Expected::Improper(1)),
    Damage(81, 1, 255, Expected::Improper(1)),
    Damage(82, 1, 255, Expected::Improper(1)),
    Damage(83, 0, 254, Expected::Improper(1)),
    Damage(84, 1, 255, Expected::Improper(1)),
    Damage(85, 1, 255, Expected::Improper(1)),
    Damage(86, 0, 254, Expected::Improper(1)),
    Damage(87, 1, 255, Expected::Improper(1)),
    Damage(88, 1, 255, Expected::Improper(1)),
    Damage(89, 0, 254, Expected::Improper(1)),
    Damage(90, 1, 255, Expected::Improper(1)),
    Damage(91, 1, 255, Expected::Improper(1)),
    Damage(92, 0, 254, Expected::Improper(1)),
    Damage(93, 1, 255, Expected::Improper(1)),
    Damage(94, 1, 255, Expected::Improper(1)),
    Damage(95, 0, 254, Expected::Improper(1)),
    Damage(96, 1, 255, Expected::Improper(1)),
    Damage(97, 1, 255, Expected::Improper(1)),
    Damage(98, 0, 254, Expected::Improper(1)),
    Damage(99, 1, 255, Expected::Improper(1)),
    Damage(100, 1, 255, Expected::Improper(1)),
    Damage(101, 0, 254, Expected::Improper(1)),
    Damage(102, 1, 255, Expected::Improper(1)),
    Damage(103, 1, 255, Expected::Improper(1)),
];

fn answer_to(expected: Expected, value: u8) -> Result<Checked, CheckDecline> {
    match expected {
        Expected::Length { base, step } => {
            let length = base.wrapping_add(step.wrapping_mul(u32::from(value)));
            Ok(Checked {
                length,
                shortest: length == 301,
            })
        }
        Expected::Improper(record) => Err(CheckDecline::Improper(record)),
        Expected::Differs(i, j) => Err(CheckDecline::Differs(Crosspoint {
            up: Uplink(i),
            down: Downlink(j),
        })),
    }
}

// What the file serves: its busiest line is uplink 0.
fn served() -> Result<Owed, Fail> {
    owes(3, &[(0, 0, 1), (0, 1, 300), (1, 0, 44), (2, 2, 1)])
}

// The file with another value at a place.
fn damaged(at: usize, value: u8) -> [u8; 104] {
    let mut file = FILE;
    if let Some(byte) = file.get_mut(at) {
        *byte = value;
    }
    file
}

// Tries the values of one row, and answers how many there were.
fn try_values(rt: &impl Abort, owed: &Owed, damage: Damage) -> usize {
    let Damage(at, first, last, expected) = damage;
    let mut tried: usize = 0;
    for value in first..=last {
        let file = damaged(at, value);
        assert_ne!(rt; file, FILE);
        assert_eq!(rt; check_file(owed, &file), answer_to(expected, value));
        tried = tried.wrapping_add(1);
    }
    tried
}

#[test]
fn the_whole_file_is_served(rt: HostRuntime) -> Result<(), Fail> {
    let owed = served()?;
    assert_eq!(rt;
        check_file(&owed, &FILE),
        Ok(Checked {
            length: 301,
            shortest: true,
        })
    );
    Ok(())
}

#[test]
fn every_damage_is_answered(rt: HostRuntime) -> Result<(), Fail> {
    let owed = served()?;
    let mut tried: usize = 0;
    for damage in &DAMAGES {
        tried = tried.wrapping_add(try_values(&rt, &owed, *damage));
    }
    assert_eq!(rt; tried, 104 * 255);
    Ok(())
}
