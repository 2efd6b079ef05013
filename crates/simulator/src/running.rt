// A run of a simulator, with what it carries.
ghost use Rattle.std.specs.Prelude.{◌≡◌, ℕ};
ghost use Rattle.lines.specs.Verdicts.{answered};
ghost use Rattle.switch.specs.Calls.{mode_decline};
ghost use Rattle.crossbar.specs.Carries.{runs_by};
ghost use Rattle.crossbar.specs.Shown.{shown};
ghost use Rattle.simulator.specs.Faults.{kept, rules_of, Smallest};

use super::making::Simulator;
use switch::{Switch, SwitchDecline};

// The switch's run: each grant carries what the rules let through.
// A crossbar's run is one for all carriers, and can speak of its carrier only; this one states what that is under fault rules.
#[tactic(auto, using(crate::proofs::Limits::kept_smallest))]
pub fn run(s: &mut Simulator) -> Result<(), SwitchDecline>
    ensures answer { result ≡ answered (mode_decline (shown s.old.fabric)) }
    ensures exact { shown s.new.fabric ≡ runs_by (λ t r i j u. kept (rules_of s.old.carrier) t i j u) (shown s.old.fabric) }
    ensures smallest { (t i j u : ℕ) → Smallest (rules_of s.old.carrier) t i j u (kept (rules_of s.old.carrier) t i j u) }
    ensures rules { s.new.carrier ≡ s.old.carrier }
{
    s.run()
}
