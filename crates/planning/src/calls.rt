// The questions to a plan.
ghost use Rattle.std.specs.Prelude.{◌≡◌, ◌<◌, length as count, if◌then◌else◌, Some, None, nat_lt};
ghost use Rattle.schedule.specs.Modes.{span};
ghost use Rattle.planning.specs.Kept.{mode_at};
ghost use Rattle.planning.specs.Plans.{plan_lines, plan_modes};

use super::plan::Plan;
use schedule::Mode;

impl Plan {
    // The lines that it was made for.
    pub fn lines(&self) -> usize
        ensures { result ≡ plan_lines self.now }
    {
        self.lines.count()
    }

    // The number of modes.
    pub fn count(&self) -> usize
        ensures { result ≡ count (plan_modes self.now) }
    {
        self.modes.len()
    }

    // The sum of the dwells.
    pub fn length(&self) -> u32
        ensures { result ≡ span (plan_modes self.now) }
    {
        self.length
    }

    // The modes, in the order in which they run.
    pub fn modes(&self) -> &[Mode]
        ensures { result.now ≡ plan_modes self.now }
    {
        self.modes.as_slice()
    }

    // Mode k, if there are so many.
    pub fn mode(&self, k: usize) -> Option<Mode>
        ensures { result ≡ (if nat_lt k (count (plan_modes self.now)) then Some (mode_at (plan_modes self.now) k) else None) }
    {
        self.modes.get(k).copied()
    }
}
