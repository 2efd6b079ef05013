// Making a simulator, and giving it rules.
ghost use Rattle.std.specs.Prelude.{◌≡◌, [], ◌∷◌, ◌++◌};
ghost use Rattle.lines.specs.Verdicts.{answered, or_same};
ghost use Rattle.crossbar.specs.Made.{fresh};
ghost use Rattle.crossbar.specs.Shown.{shown};
ghost use Rattle.simulator.specs.Faults.{rules_of};
ghost use Rattle.simulator.specs.Made.{make_decline, rule_decline};

use super::decline::{RuleDecline, SimulatorDecline};
use super::rules::{FaultRule, FaultRules};
use crossbar::{Crossbar, lines_outside};
use lines::Line;
use switch::Switch;

// A switch that carries all units but where a fault rule holds.
pub type Simulator = Crossbar<FaultRules>;

// Whether a simulator can have these lines.
pub fn check(lines: usize) -> Result<(), SimulatorDecline>
    ensures { result ≡ answered (make_decline lines) }
{
    if lines_outside(lines) {
        return Err(SimulatorDecline::LinesOutside);
    }
    Ok(())
}

// Lines that check declines give a switch of one line without room.
pub fn make(lines: usize, room: u16) -> Simulator
    ensures meaning { shown result.fabric ≡ or_same (make_decline lines) (fresh lines room) (fresh 1 0) }
    ensures rules { rules_of result.carrier ≡ [] }
{
    Crossbar::new(lines, room, FaultRules::none())
}

// One more rule, from now on.
pub fn add_rule(s: &mut Simulator, rule: FaultRule) -> Result<(), RuleDecline>
    ensures answer { result ≡ answered (rule_decline (shown s.old.fabric).lines (rules_of s.old.carrier) rule) }
    ensures rules { rules_of s.new.carrier ≡ or_same (rule_decline (shown s.old.fabric).lines (rules_of s.old.carrier) rule) (rules_of s.old.carrier ++ (rule ∷ [])) (rules_of s.old.carrier) }
    ensures meaning { shown s.new.fabric ≡ shown s.old.fabric }
{
    let lines = s.lines();
    if usize::from(rule.up.0) >= lines {
        return Err(RuleDecline::LineAbove(Line::Up(rule.up)));
    }
    if usize::from(rule.down.0) >= lines {
        return Err(RuleDecline::LineAbove(Line::Down(rule.down)));
    }
    let rules = s.carrier().with(rule)?;
    s.replace_carrier(rules);
    Ok(())
}
