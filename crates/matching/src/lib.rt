// What a matching engine is: what it may answer for the support of a matrix.
#![tactic(auto)]

ghost use Rattle.std.specs.Prelude.{◌≡◌, ℕ, Some, None, MatchResult};
ghost use Rattle.matching.specs.Supports.{in_rows, Settled};
ghost use Rattle.matching.specs.Answers.{May, AllRight, Right, NotBoth, find_decline, number, place};

use lines::{Decline, Downlink, Place};

// A downlink for each uplink, or a set of uplinks whose rows hold too few downlinks for that. Both are answers to the same question, and neither is a failure.
#[derive(Clone, Copy, PartialEq, Eq, Debug)]
pub enum EngineAnswer {
    // An array of sixteen is copied with no length beside it; the places past the last uplink hold Downlink(255), a number that no line has.
    Matching([Downlink; 16]),
    Witness(u16),
}

// The number of lines is outside 1 to 16.
#[derive(Clone, Copy, PartialEq, Eq, Debug)]
pub enum EngineDecline {
    Lines,
}

impl Decline for EngineDecline {
    ghost number = { number };

    ghost place = { place };

    fn number(&self) -> u16 {
        match *self {
            EngineDecline::Lines => 1,
        }
    }

    fn place(&self) -> Place {
        match *self {
            EngineDecline::Lines => Place::Nowhere,
        }
    }
}

pub trait Engine {
    // The letter that tells it from other engines.
    const LETTER: char;

    ghost LETTER: { ℕ };

    // the answers that it may give; they do not depend on the engine's value, so no call changes them
    ghost may: { May };

    // The number of lines may be any, and the rows are handed over whole, so the two are no struct that could be made only of some.
    fn find(&self, n: usize, rows: [u16; 16]) -> Result<EngineAnswer, EngineDecline>
        ensures { MatchResult result (λ a. (find_decline n ≡ None) × may n rows a) (λ e. find_decline n ≡ Some e) };

    ghost right: { AllRight may };
}

// The letter of an engine, without an engine at hand.
pub fn letter_of<E: Engine>() -> char
    ensures { result ≡ E.Engine.LETTER }
{
    E::LETTER
}

// No support has both a matching and a witness.
pub fn never_both()
    ensures { NotBoth }
{}

// Whether the answer is a matching; then there is no witness, and else no matching.
fn tells(n: usize, rows: [u16; 16], answer: EngineAnswer) -> bool
    requires { Right n rows answer }
    ensures { Settled n (in_rows rows) result }
{
    match answer {
        EngineAnswer::Matching(_) => true,
        EngineAnswer::Witness(_) => false,
    }
}

// Whether the rows have a matching, as any engine finds out.
pub fn has_matching<E: Engine>(engine: &E, n: usize, rows: [u16; 16]) -> Result<bool, EngineDecline>
    ensures { MatchResult result (λ b. (find_decline n ≡ None) × Settled n (in_rows rows) b) (λ e. find_decline n ≡ Some e) }
{
    engine.find(n, rows).map(|answer| tells(n, rows, answer))
}
