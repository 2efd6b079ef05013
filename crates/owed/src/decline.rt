// Why a call on the owed matrix is declined.
ghost use Rattle.std.specs.Prelude.{◌≡◌};
ghost use Rattle.owed.specs.Calls.{number, place};

use lines::{Crosspoint, Decline, Line, Place};

#[derive(Clone, Copy, PartialEq, Eq, Debug)]
pub enum OwedDecline {
    Lines,
    LineAbove(Line),
    NoUnits,
    LineFull(Line),
    TooMuch(Crosspoint),
}

impl Decline for OwedDecline {
    ghost number = { number };

    ghost place = { place };

    fn number(&self) -> u16 {
        match *self {
            OwedDecline::Lines => 1,
            OwedDecline::LineAbove(_) => 4,
            OwedDecline::NoUnits => 5,
            OwedDecline::LineFull(_) => 7,
            OwedDecline::TooMuch(_) => 8,
        }
    }

    fn place(&self) -> Place {
        match *self {
            OwedDecline::Lines => Place::Nowhere,
            OwedDecline::LineAbove(line) => Place::OnLine(line),
            OwedDecline::NoUnits => Place::Nowhere,
            OwedDecline::LineFull(line) => Place::OnLine(line),
            OwedDecline::TooMuch(crosspoint) => Place::AtCrosspoint(crosspoint),
        }
    }
}
