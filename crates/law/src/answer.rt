// What a session answers.
ghost use Rattle.std.specs.Prelude.{◌≡◌, MatchResult};
ghost use Rattle.law.specs.declared.answer.Answer.TheVariants.{Accepted, Planned, Stepped, Ran, Units, Wrote, Declined};

use super::decline::SessionDecline;
use runs::{Cause, Shortfall};

// A plan that was made, by its number of modes and its length.
#[derive(Clone, Copy, PartialEq, Eq, Debug)]
pub struct PlanSize {
    pub modes: usize,
    pub length: u32,
}

// A mode that was run, by its number from 0 and its dwell, and what fell short.
#[derive(Clone, Copy, PartialEq, Eq, Debug)]
pub struct Step {
    pub number: usize,
    pub dwell: u16,
    pub short: Option<Shortfall>,
}

// How many modes a run had, and why it stopped.
#[derive(Clone, Copy, PartialEq, Eq, Debug)]
pub struct RunEnd {
    pub count: u16,
    pub cause: Cause,
}

#[derive(Clone, Copy, PartialEq, Eq, Debug)]
pub enum Answer {
    Accepted,
    Planned(PlanSize),
    Stepped(Step),
    Ran(RunEnd),
    // What a question asks for: units, modes or time.
    Units(u32),
    // So many bytes.
    Wrote(usize),
    Declined(SessionDecline),
}

impl From<()> for Answer {
    ghost from_gives = { λ _ a. a ≡ Accepted };

    fn from(_done: ()) -> Answer {
        Answer::Accepted
    }
}

impl From<PlanSize> for Answer {
    ghost from_gives = { λ x a. a ≡ Planned x };

    fn from(size: PlanSize) -> Answer {
        Answer::Planned(size)
    }
}

impl From<Step> for Answer {
    ghost from_gives = { λ x a. a ≡ Stepped x };

    fn from(step: Step) -> Answer {
        Answer::Stepped(step)
    }
}

impl From<RunEnd> for Answer {
    ghost from_gives = { λ x a. a ≡ Ran x };

    fn from(end: RunEnd) -> Answer {
        Answer::Ran(end)
    }
}

impl From<u32> for Answer {
    ghost from_gives = { λ x a. a ≡ Units x };

    fn from(number: u32) -> Answer {
        Answer::Units(number)
    }
}

impl From<usize> for Answer {
    ghost from_gives = { λ x a. a ≡ Wrote x };

    fn from(bytes: usize) -> Answer {
        Answer::Wrote(bytes)
    }
}

impl From<SessionDecline> for Answer {
    ghost from_gives = { λ d a. a ≡ Declined d };

    fn from(decline: SessionDecline) -> Answer {
        Answer::Declined(decline)
    }
}

// What a call of the session returns, as an answer.
impl<T: Into<Answer>> From<Result<T, SessionDecline>> for Answer {
    ghost from_gives = { λ r a. MatchResult r (λ x. T.converts x a) (λ d. a ≡ Declined d) };

    fn from(outcome: Result<T, SessionDecline>) -> Answer {
        match outcome {
            Ok(told) => told.into(),
            Err(decline) => decline.into(),
        }
    }
}
