// Making a plan for what is owed.
ghost use Rattle.std.specs.Prelude.{◌≡◌, ◌<◌, IfOk, MatchResult, OnOk};
ghost use Rattle.lines.specs.Matrix.{busiest as most};
ghost use Rattle.owed.specs.Calls.{lines_of, units_of};
ghost use Rattle.planning.specs.Making.{MadeBy};
ghost use Rattle.planning.specs.Best.{Best, NoWitness};
ghost use Rattle.planning.specs.Plans.{plan_lines, plan_modes, Stands};

use super::decline::PlanDecline;
use super::plan::Plan;
use super::rest::Rest;
use matching::Engine;
use owed::Owed;
use std::alloc::{AllocError, Global};

// A plan for what is owed: one matching after the other, until nothing is left.
fn plan_from<E: Engine>(heap: Global, engine: &E, owed: &Owed) -> Result<Plan, AllocError>
    requires { 0 < most (lines_of owed.now) (units_of owed.now) }
    ensures lines { IfOk result (λ p. plan_lines p ≡ lines_of owed.now) }
    ensures made_by { IfOk result (λ p. MadeBy E.Engine.may (lines_of owed.now) (units_of owed.now) (plan_modes p)) }
    ensures best { IfOk result (λ p. Best (lines_of owed.now) (units_of owed.now) (plan_modes p)) }
    ensures hall { OnOk result (NoWitness) }
{
    let mut rest = Rest::new(owed);
    let mut modes = Vec::new(heap);
    while rest.left > 0 {
        let mode = rest.next_mode(engine);
        modes.push(mode)?;
    }
    Ok(Plan {
        lines: owed.line_count(),
        length: owed.busiest(),
        modes,
    })
}

// The shortest plan for what is owed, made of the engine's matchings.
pub fn make_plan<E: Engine>(heap: Global, engine: &E, owed: &Owed) -> Result<Plan, PlanDecline>
    ensures answer { MatchResult result (λ p. (0 < most (lines_of owed.now) (units_of owed.now)) × (plan_lines p ≡ lines_of owed.now)) (Stands (most (lines_of owed.now) (units_of owed.now))) }
    ensures made_by { IfOk result (λ p. MadeBy E.Engine.may (lines_of owed.now) (units_of owed.now) (plan_modes p)) }
    ensures best { IfOk result (λ p. Best (lines_of owed.now) (units_of owed.now) (plan_modes p)) }
    ensures hall { OnOk result (NoWitness) }
{
    if owed.busiest() == 0 {
        return Err(PlanDecline::NothingOwed);
    }
    plan_from(heap, engine, owed).map_err(|_| PlanDecline::NoMemory)
}
