// The list of a simulator's fault rules.
ghost use Rattle.std.specs.Prelude.{◌≡◌, true, false, [], ◌∷◌, ◌++◌, length, MatchResult, nat_le};
ghost use Rattle.simulator.specs.Faults.{rules_of};
ghost use Rattle.simulator.specs.Made.{most_rules};

use super::decline::RuleDecline;
use super::rules::{FaultRule, FaultRules};
use lines::{Downlink, Uplink};

impl FaultRules {
    pub(super) fn none() -> FaultRules
        ensures { rules_of result ≡ [] }
    {
        let unused = FaultRule {
            up: Uplink(0),
            down: Downlink(0),
            most: 0,
            from: 0,
        };
        FaultRules {
            rules: [unused; 32],
            count: 0,
        }
    }

    // The rules that hold, in the order in which they came.
    pub(super) fn in_use(&self) -> &[FaultRule]
        ensures { result.now ≡ rules_of self.now }
    {
        &self.rules[..self.count]
    }

    // One rule more, where there are fewer than 32.
    pub(super) fn with(&self, rule: FaultRule) -> Result<FaultRules, RuleDecline>
        ensures { MatchResult result (λ r. (nat_le most_rules (length (rules_of self.now)) ≡ false) × (rules_of r ≡ rules_of self.now ++ (rule ∷ []))) (λ e. (nat_le most_rules (length (rules_of self.now)) ≡ true) × (e ≡ RuleDecline.RulesFull)) }
    {
        if self.count >= 32 {
            return Err(RuleDecline::RulesFull);
        }
        let mut rules = self.rules;
        rules[self.count] = rule;
        Ok(FaultRules {
            rules,
            count: self.count + 1,
        })
    }
}
