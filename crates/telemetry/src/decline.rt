// Why a telemetry switch can't be made.
ghost use Rattle.telemetry.specs.Made.{number, place};

use lines::{Decline, Place};

#[derive(Clone, Copy, PartialEq, Eq, Debug)]
pub enum TelemetryDecline {
    LinesOutside,
    PartRecord,
}

impl Decline for TelemetryDecline {
    ghost number = { number };

    ghost place = { place };

    fn number(&self) -> u16 {
        match *self {
            TelemetryDecline::LinesOutside => 1,
            TelemetryDecline::PartRecord => 2,
        }
    }

    fn place(&self) -> Place {
        match *self {
            TelemetryDecline::LinesOutside | TelemetryDecline::PartRecord => Place::Nowhere,
        }
    }
}
