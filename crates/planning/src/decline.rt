// Why no plan is made.
ghost use Rattle.std.specs.Prelude.{◌≡◌};
ghost use Rattle.planning.specs.Plans.{number, place};

use lines::{Decline, Place};

#[derive(Clone, Copy, PartialEq, Eq, Debug)]
pub enum PlanDecline {
    NothingOwed,
    // Want of memory is no reason of the rules, so it tells the number 0, which they give to none.
    NoMemory,
}

impl Decline for PlanDecline {
    ghost number = { number };

    ghost place = { place };

    fn number(&self) -> u16 {
        match *self {
            PlanDecline::NothingOwed => 10,
            PlanDecline::NoMemory => 0,
        }
    }

    fn place(&self) -> Place {
        Place::Nowhere
    }
}
