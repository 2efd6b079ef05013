// Modes written and read back.
ghost use Rattle.std.specs.Prelude.{◌≡◌, ◌*◌, ◌++◌, length, drop, MatchResult};
ghost use Rattle.lines.specs.Verdicts.{or_same};
ghost use Rattle.plan_files.specs.Back.{Done, Undone, RoundTrip};
ghost use Rattle.plan_files.specs.Declines.{write_decline};
ghost use Rattle.plan_files.specs.Encoding.{encoded};

use super::decline::FileDecline;
use super::read::{PlanFile, read_modes};
use super::write::write_modes;
use schedule::Mode;
use std::alloc::Global;

// Writes modes of so many lines into the front of a buffer, and reads them back. Modes that keep the rules come back as they were.
pub fn write_and_read(
    heap: Global,
    lines: usize,
    modes: &[Mode],
    out: &mut [u8],
) -> Result<PlanFile, FileDecline>
    ensures after { out.new ≡ or_same (write_decline (length modes.now) (length out.old)) (encoded lines modes.now ++ drop (52 * length modes.now) out.old) out.old }
    ensures told { MatchResult result (Done lines modes.now (length out.old)) (Undone lines modes.now (length out.old)) }
    ensures same { RoundTrip lines modes.now result }
{
    let used = write_modes(lines, modes, out)?;
    let plan = read_modes(heap, &out[0..used])?;
    Ok(plan)
}
