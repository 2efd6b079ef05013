// Why a file is declined.
ghost use Rattle.std.specs.Prelude.{◌≡◌};
ghost use Rattle.checker.specs.Check.{number, place};

use lines::{Crosspoint, Decline, Place};

#[derive(Clone, Copy, PartialEq, Eq, Debug)]
pub enum CheckDecline {
    // The length is not whole records, or there are too many.
    Size,
    // The first record that is no mode of so many lines.
    Improper(usize),
    // The first crosspoint that gets other units than it is owed.
    Differs(Crosspoint),
}

impl Decline for CheckDecline {
    ghost number = { number };

    ghost place = { place };

    fn number(&self) -> u16 {
        match *self {
            CheckDecline::Size => 15,
            CheckDecline::Improper(_) => 17,
            CheckDecline::Differs(_) => 18,
        }
    }

    fn place(&self) -> Place {
        match *self {
            CheckDecline::Size => Place::Nowhere,
            CheckDecline::Improper(record) => Place::AtRecord(record),
            CheckDecline::Differs(crosspoint) => Place::AtCrosspoint(crosspoint),
        }
    }
}
