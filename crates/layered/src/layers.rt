// The layers of one round, breadth first: uplinks that hold nothing, the downlinks of their rows, the holders of these, and so on.
ghost use Rattle.std.specs.Prelude.{MatchResult};
ghost use Rattle.layered.specs.Layers.{Roots, Stepped, Leading, Ended};

use augmenting::Pairing;
use lines::{has_line, is_empty, united, without};

// Makes the steps from the uplinks of the layer to the downlinks of their rows that are not seen yet, and answers all these downlinks.
fn step_on(rows: &[u16; 16], layer: u16, seen: u16, steps: &mut [u16; 16]) -> u16
    ensures { Stepped rows.now layer seen steps.old steps.new result }
{
    let mut next = 0;
    // the rows by their number: nothing is known of what was written through a zip with iter_mut
    for (up, step) in steps.iter_mut().enumerate() {
        if has_line(layer, up) {
            *step = without(rows[up], seen);
            next = united(next, *step);
        }
    }
    next
}

// The steps from each uplink to the downlinks a layer further, up to the first layer with a free downlink. Where no free downlink is reached, it fails with the uplinks that are.
pub(crate) fn layers_from(rows: &[u16; 16], pairing: &Pairing, roots: u16) -> Result<[u16; 16], u16>
    requires { Roots pairing.now.holders roots }
    ensures { MatchResult result (λ steps. Leading rows.now pairing.now.holders roots steps) (λ reached. Ended rows.now pairing.now.holders roots reached) }
{
    let held = pairing.held();
    let mut steps = [0; 16];
    let mut layer = roots;
    let mut reached = roots;
    let mut seen = 0;
    loop {
        let next = step_on(rows, layer, seen, &mut steps);
        if is_empty(next) {
            return Err(reached);
        }
        if !is_empty(without(next, held)) {
            return Ok(steps);
        }
        seen = united(seen, next);
        layer = pairing.holders_of(next);
        reached = united(reached, layer);
    }
}
