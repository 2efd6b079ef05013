// Why a simulator can't be made, and why it takes no rule.
ghost use Rattle.simulator.specs.Made.{number, place, rule_number, rule_place};

use lines::{Decline, Line, Place};

#[derive(Clone, Copy, PartialEq, Eq, Debug)]
pub enum SimulatorDecline {
    LinesOutside,
}

#[derive(Clone, Copy, PartialEq, Eq, Debug)]
pub enum RuleDecline {
    LineAbove(Line),
    RulesFull,
}

impl Decline for SimulatorDecline {
    ghost number = { number };

    ghost place = { place };

    fn number(&self) -> u16 {
        match *self {
            SimulatorDecline::LinesOutside => 1,
        }
    }

    fn place(&self) -> Place {
        match *self {
            SimulatorDecline::LinesOutside => Place::Nowhere,
        }
    }
}

impl Decline for RuleDecline {
    ghost number = { rule_number };

    ghost place = { rule_place };

    fn number(&self) -> u16 {
        match *self {
            RuleDecline::LineAbove(_) => 4,
            RuleDecline::RulesFull => 3,
        }
    }

    fn place(&self) -> Place {
        match *self {
            RuleDecline::LineAbove(line) => Place::OnLine(line),
            RuleDecline::RulesFull => Place::Nowhere,
        }
    }
}
