// The engine by layers, as of Hopcroft and Karp: rounds of shortest augmenting paths.
#![tactic(auto)]

ghost use Rattle.matching.specs.Answers.{Right};
ghost use Rattle.std.proofs.Common.{rules};

mod layers;
mod rounds;

use crate::rounds::answer;
use lines::Lines;
use matching::{Engine, EngineAnswer, EngineDecline};

#[derive(Clone, Copy)]
pub struct Layered;

impl Engine for Layered {
    const LETTER: char = 'H';

    ghost LETTER = { 72 };

    ghost may = { Right };

    ghost right = { Prim.search rules };

    // The same two lines in each engine: to share them, every engine would need a method more.
    fn find(&self, n: usize, rows: [u16; 16]) -> Result<EngineAnswer, EngineDecline> {
        let lines = Lines::new(n).ok_or(EngineDecline::Lines)?;
        Ok(answer(lines, rows))
    }
}
