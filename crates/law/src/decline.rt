// Why a session declines a call.
ghost use Rattle.std.specs.Prelude.{◌≡◌};
ghost use Rattle.law.specs.declared.decline.SessionDecline.TheVariants.{Booking, ShortBuffer};
ghost use Rattle.law.specs.Declines.{number, place, layer};

use driver::DriverDecline;
use lines::{Decline, Place};
use owed::OwedDecline;
use plan_files::WriteDecline;

#[derive(Clone, Copy, PartialEq, Eq, Debug)]
pub enum SessionDecline {
    PlanStands,
    NoPlan,
    NothingOwed,
    NoBudget,
    Booking(OwedDecline),
    PartRecord,
    // A record of a batch, by its number from 0.
    Record {
        number: usize,
        station: u16,
        decline: OwedDecline,
    },
    // A mode of the plan, by its number from 0, that the switch does not open.
    Mode {
        number: usize,
        decline: DriverDecline,
    },
    ShortBuffer,
    // Want of memory is no reason of the rules, so it has none of their numbers.
    NoMemory,
}

// Who declines: the session, the session at a record of a batch, or the switch at a mode of the plan.
#[derive(Clone, Copy, PartialEq, Eq, Debug)]
pub enum Layer {
    Session,
    Batch { number: usize, station: u16 },
    Switch { mode: usize },
}

impl Decline for SessionDecline {
    ghost number = { number };

    ghost place = { place };

    fn number(&self) -> u16 {
        match *self {
            SessionDecline::PlanStands => 6,
            SessionDecline::NoPlan => 9,
            SessionDecline::NothingOwed => 10,
            SessionDecline::NoBudget => 5,
            SessionDecline::Booking(decline) => decline.number(),
            SessionDecline::PartRecord => 15,
            SessionDecline::Record { decline, .. } => decline.number(),
            SessionDecline::Mode { decline, .. } => decline.number(),
            SessionDecline::ShortBuffer => 16,
            SessionDecline::NoMemory => 0,
        }
    }

    fn place(&self) -> Place {
        match *self {
            SessionDecline::Booking(decline) => decline.place(),
            SessionDecline::Record { decline, .. } => decline.place(),
            SessionDecline::Mode { decline, .. } => decline.place(),
            SessionDecline::PlanStands
            | SessionDecline::NoPlan
            | SessionDecline::NothingOwed
            | SessionDecline::NoBudget
            | SessionDecline::PartRecord
            | SessionDecline::ShortBuffer
            | SessionDecline::NoMemory => Place::Nowhere,
        }
    }
}

impl From<OwedDecline> for SessionDecline {
    ghost from_gives = { λ e d. d ≡ Booking e };

    fn from(decline: OwedDecline) -> SessionDecline {
        Self::Booking(decline)
    }
}

impl From<WriteDecline> for SessionDecline {
    ghost from_gives = { λ _ d. d ≡ ShortBuffer };

    fn from(decline: WriteDecline) -> SessionDecline {
        match decline {
            WriteDecline::ShortBuffer => Self::ShortBuffer,
        }
    }
}

impl SessionDecline {
    pub fn layer(&self) -> Layer
        ensures { result ≡ layer self.now }
    {
        match *self {
            SessionDecline::Record {
                number,
                station,
                ..
            } => Layer::Batch { number, station },
            SessionDecline::Mode { number, .. } => Layer::Switch { mode: number },
            SessionDecline::PlanStands
            | SessionDecline::NoPlan
            | SessionDecline::NothingOwed
            | SessionDecline::NoBudget
            | SessionDecline::Booking(_)
            | SessionDecline::PartRecord
            | SessionDecline::ShortBuffer
            | SessionDecline::NoMemory => Layer::Session,
        }
    }
}
