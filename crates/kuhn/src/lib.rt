// Kuhn's engine: uplinks rising, each by a search for an augmenting path with its downlinks rising.
#![tactic(auto)]

ghost use Rattle.std.specs.Prelude.{◌≡◌, Some, None, MatchResult};
ghost use Rattle.matching.specs.Supports.{in_rows, Settled};
ghost use Rattle.matching.specs.Answers.{Right, find_decline};
ghost use Rattle.kuhn.specs.Stuck.{Stuck};
ghost use Rattle.std.proofs.Common.{rules};

use augmenting::{Pairing, within};
use lines::{Lines, Uplink, with_line};
use matching::{Engine, EngineAnswer, EngineDecline};

#[derive(Clone, Copy)]
pub struct Kuhn;

// The uplink whose search failed, with the holders of all that was tried for it.
fn stuck_with(pairing: &Pairing, up: usize, tried: u16) -> u16
    ensures { Stuck pairing.now.holders up tried result }
{
    with_line(pairing.holders_of(tried), up)
}

fn answer(lines: Lines, rows: [u16; 16]) -> EngineAnswer
    ensures { Right lines.count rows result }
{
    let n = lines.count();
    let cut = within(n, rows);
    let mut pairing = Pairing::none();
    // the number is the uplink's, and no place of an array
    for up in 0..n {
        let mut tried = 0;
        if !pairing.augment(&cut, Uplink(up as u16), &mut tried) {
            return EngineAnswer::Witness(stuck_with(&pairing, up, tried));
        }
    }
    EngineAnswer::Matching(pairing.mates())
}

impl Engine for Kuhn {
    const LETTER: char = 'K';

    ghost LETTER = { 75 };

    ghost may = { Right };

    ghost right = { Prim.search rules };

    // The same two lines in each engine: to share them, every engine would need a method more.
    fn find(&self, n: usize, rows: [u16; 16]) -> Result<EngineAnswer, EngineDecline> {
        let lines = Lines::new(n).ok_or(EngineDecline::Lines)?;
        Ok(answer(lines, rows))
    }
}

// Whether the rows have a matching: exactly one of a matching and a witness exists. It takes no engine, so it shows that one of the two exists for every support.
pub fn has_matching(n: usize, rows: [u16; 16]) -> Result<bool, EngineDecline>
    ensures { MatchResult result (λ b. (find_decline n ≡ None) × Settled n (in_rows rows) b) (λ e. find_decline n ≡ Some e) }
{
    matching::has_matching(&Kuhn, n, rows)
}
