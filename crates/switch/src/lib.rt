// A switch by its meaning: what each call does, and when it is declined.
#![tactic(auto)]

ghost use Rattle.std.specs.Prelude.{◌≡◌};
ghost use Rattle.lines.specs.Verdicts.{answered, or_same};
ghost use Rattle.switch.specs.Meaning.{Meaning, Sound};
ghost use Rattle.switch.specs.Calls.{number, place, open_decline, opens, grant_decline, grants, mode_decline, voids, RunTo, carried_answer, dwell_answer, granted_answer, last_answer};

use lines::{Decline, Downlink, Line, Place, Uplink};
use schedule::Join;

// A grant that was run, and the units that it carried.
#[derive(Clone, Copy, PartialEq, Eq, Debug)]
pub struct Outcome {
    pub join: Join,
    pub carried: u16,
}

// Why a switch declined a call.
#[derive(Clone, Copy, PartialEq, Eq, Debug)]
pub enum SwitchDecline {
    LineAbove(Line),
    BadUnits,
    ModeOpen,
    NoMode,
    NoRoom,
    LineTaken(Line),
}

impl Decline for SwitchDecline {
    ghost number = { number };

    ghost place = { place };

    fn number(&self) -> u16 {
        match *self {
            SwitchDecline::LineAbove(_) => 4,
            SwitchDecline::BadUnits => 5,
            SwitchDecline::ModeOpen => 11,
            SwitchDecline::NoMode => 12,
            SwitchDecline::NoRoom => 13,
            SwitchDecline::LineTaken(_) => 14,
        }
    }

    fn place(&self) -> Place {
        match *self {
            SwitchDecline::LineAbove(line) | SwitchDecline::LineTaken(line) => Place::OnLine(line),
            SwitchDecline::BadUnits
            | SwitchDecline::ModeOpen
            | SwitchDecline::NoMode
            | SwitchDecline::NoRoom => Place::Nowhere,
        }
    }
}

pub trait Switch {
    ghost meaning: { Self → Meaning };

    fn open(&mut self, dwell: u16) -> Result<(), SwitchDecline>
        ensures answer { result ≡ answered (open_decline dwell (meaning self.old)) }
        ensures after { meaning self.new ≡ or_same (open_decline dwell (meaning self.old)) (opens dwell (meaning self.old)) (meaning self.old) };

    fn grant(&mut self, up: Uplink, down: Downlink, units: u16) -> Result<(), SwitchDecline>
        ensures answer { result ≡ answered (grant_decline up down units (meaning self.old)) }
        ensures after { meaning self.new ≡ or_same (grant_decline up down units (meaning self.old)) (grants up down units (meaning self.old)) (meaning self.old) };

    fn run(&mut self) -> Result<(), SwitchDecline>
        ensures answer { result ≡ answered (mode_decline (meaning self.old)) }
        ensures after { RunTo (meaning self.old) (meaning self.new) };

    fn void(&mut self) -> Result<(), SwitchDecline>
        ensures answer { result ≡ answered (mode_decline (meaning self.old)) }
        ensures after { meaning self.new ≡ voids (meaning self.old) };

    fn lines(&self) -> usize
        ensures { result ≡ (meaning self.now).lines };

    fn room(&self) -> u16
        ensures { result ≡ (meaning self.now).room };

    fn clock(&self) -> u64
        ensures { result ≡ (meaning self.now).clock };

    fn carried(&self, up: Uplink, down: Downlink) -> Result<u64, SwitchDecline>
        ensures { result ≡ carried_answer up down (meaning self.now) };

    // The dwell of the open mode, if one is open.
    fn dwell(&self) -> Option<u16>
        ensures { result ≡ dwell_answer (meaning self.now).mode };

    // What the open mode grants to an uplink.
    fn granted(&self, up: Uplink) -> Result<Option<Join>, SwitchDecline>
        ensures { result ≡ granted_answer up (meaning self.now) };

    // What an uplink did in the last run.
    fn last(&self, up: Uplink) -> Result<Option<Outcome>, SwitchDecline>
        ensures { result ≡ last_answer up (meaning self.now) };

    // Every switch that can exist keeps the limits.
    ghost sound: { (s : Self) → Sound (meaning s) };
}
