// Plans written as records and read back.
#![tactic(auto)]

ghost use Rattle.std.specs.Prelude.{◌≡◌, ◌*◌, ◌++◌, length, drop, MatchResult};
ghost use Rattle.lines.specs.Verdicts.{or_same};
ghost use Rattle.planning.specs.Plans.{plan_lines, plan_modes};
ghost use Rattle.plan_files.specs.Declines.{write_decline};
ghost use Rattle.plan_files.specs.Encoding.{encoded};
ghost use Rattle.plan_copies.specs.Copies.{Copied, Uncopied};

use plan_files::{FileDecline, PlanFile, write_and_read};
use planning::Plan;
use std::alloc::Global;

// Writes a plan into the front of a buffer, and reads it back: it is the same plan, unless the buffer is too short or memory is wanting.
#[tactic(auto, using(crate::proofs::Copying::copied))]
pub fn copy_plan(heap: Global, plan: &Plan, out: &mut [u8]) -> Result<PlanFile, FileDecline>
    ensures after { out.new ≡ or_same (write_decline (length (plan_modes plan.now)) (length out.old)) (encoded (plan_lines plan.now) (plan_modes plan.now) ++ drop (52 * length (plan_modes plan.now)) out.old) out.old }
    ensures copied { MatchResult result (Copied plan.now (length out.old)) (Uncopied plan.now (length out.old)) }
{
    write_and_read(heap, plan.lines(), plan.modes(), out)
}
