// The rounds: layers, and then augmenting paths from layer to layer that share no downlink.
ghost use Rattle.std.specs.Prelude.{◌≡◌, MatchResult};
ghost use Rattle.matching.specs.Answers.{Right};
ghost use Rattle.layered.specs.Layers.{Roots, Leads, Round, Left, Gained, Ended, Whole};

use crate::layers::layers_from;
use augmenting::{Pairing, within};
use lines::{Lines, Uplink, has_line, is_empty, lines_below, without};
use matching::EngineAnswer;

// Searches for a path from each of the uplinks, by the steps between layers; no two paths share a downlink.
fn augment_all(steps: &[u16; 16], roots: u16, pairing: &mut Pairing)
    requires roots { Roots pairing.old.holders roots }
    requires leads { Leads steps.now pairing.old.holders roots }
    ensures { Round steps.now pairing.old.holders pairing.new.holders roots }
{
    let mut tried = 0;
    // A set of lines has no iterator, so each number is asked for.
    for up in 0..16 {
        if has_line(roots, up) {
            pairing.augment(steps, Uplink(up as u16), &mut tried);
        }
    }
}

// Those of the uplinks that hold nothing.
fn still_idle(pairing: &Pairing, ups: u16) -> u16
    ensures { Left pairing.now.holders ups result }
{
    without(ups, pairing.holders_of(lines_below(16)))
}

// Layers, and paths along them, from the uplinks that hold nothing (a fact of them and of a pairing that changes, which no struct could hold); answers those that still hold nothing. Where no free downlink is reached, it fails with the uplinks that are.
fn round(rows: &[u16; 16], idle: u16, pairing: &mut Pairing) -> Result<u16, u16>
    requires { Roots pairing.old.holders idle }
    ensures { MatchResult result (λ rest. Gained rows.now pairing.old.holders pairing.new.holders idle rest) (λ reached. (pairing.new ≡ pairing.old) × Ended rows.now pairing.old.holders idle reached) }
{
    let steps = layers_from(rows, pairing, idle)?;
    augment_all(&steps, idle, pairing);
    Ok(still_idle(pairing, idle))
}

// Rounds until each uplink holds a downlink. Where a round fails, the uplinks that it reached are a witness.
fn pair_all(lines: Lines, rows: [u16; 16]) -> Result<Pairing, u16>
    ensures { MatchResult result (λ pairing. Whole lines.count rows pairing.holders) (λ reached. Right lines.count rows (EngineAnswer.Witness reached)) }
{
    let n = lines.count();
    let cut = within(n, rows);
    let mut pairing = Pairing::none();
    let mut idle = lines_below(n);
    while !is_empty(idle) {
        idle = round(&cut, idle, &mut pairing)?;
    }
    Ok(pairing)
}

pub(crate) fn answer(lines: Lines, rows: [u16; 16]) -> EngineAnswer
    ensures { Right lines.count rows result }
{
    match pair_all(lines, rows) {
        Ok(pairing) => EngineAnswer::Matching(pairing.mates()),
        Err(reached) => EngineAnswer::Witness(reached),
    }
}
