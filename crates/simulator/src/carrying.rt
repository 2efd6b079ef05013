// What a grant carries under fault rules.
ghost use Rattle.std.specs.Prelude.{◌≡◌, ◌≤◌};
ghost use Rattle.simulator.specs.Faults.{after, kept, rules_of, Smallest};

use super::rules::{FaultRule, FaultRules};
use crossbar::{Carrier, Start};
use lines::{Downlink, Uplink};

impl FaultRule {
    // The units that the rule lets through.
    fn lets(&self, clock: u64, up: Uplink, down: Downlink, units: u16) -> u16
        ensures { result ≡ after self.now clock up.0 down.0 units }
    {
        if self.up == up && self.down == down && self.from <= clock {
            units.min(self.most)
        } else {
            units
        }
    }
}

// The units that all rules let through.
fn after_rules(rules: &[FaultRule], clock: u64, up: Uplink, down: Downlink, units: u16) -> u16
    ensures exact { result ≡ kept rules.now clock up.0 down.0 units }
    ensures smallest { Smallest rules.now clock up.0 down.0 units result }
{
    rules
        .iter()
        .fold(units, |left, rule| rule.lets(clock, up, down, left))
}

impl Carrier for FaultRules {
    ghost carries = { λ s t r i j u. kept (rules_of s) t i j u };

    fn carry(&self, start: Start, up: Uplink, down: Downlink, units: u16) -> u16
        ensures exact { result ≡ kept (rules_of self.now) start.clock up.0 down.0 units }
        ensures within { result ≤ units }
        ensures smallest { Smallest (rules_of self.now) start.clock up.0 down.0 units result }
    {
        after_rules(self.in_use(), start.clock, up, down, units)
    }
}
