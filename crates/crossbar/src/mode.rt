// The mode of a fabric.
ghost use Rattle.std.specs.Prelude.{◌≡◌, IfErr};
ghost use Rattle.std.specs.Result.{result_ok};
ghost use Rattle.switch.specs.Calls.{runs};
ghost use Rattle.crossbar.specs.Carries.{Closes};
ghost use Rattle.crossbar.specs.Shown.{shown};

use super::carry::add_outcomes;
use super::fabric::Fabric;
use schedule::Mode;
use switch::{Outcome, SwitchDecline};

impl Fabric {
    pub(super) fn open_mode(&self) -> Result<Mode, SwitchDecline>
        ensures mode { self.now.mode ≡ result_ok result }
        ensures none { IfErr result (λ e. e ≡ SwitchDecline.NoMode) }
    {
        self.mode.ok_or(SwitchDecline::NoMode)
    }

    // Ends the open mode with these outcomes.
    pub(super) fn close(&mut self, dwell: u16, all: [Option<Outcome>; 16])
        requires { Closes (shown self.old) dwell all }
        ensures { shown self.new ≡ runs all (shown self.old) }
    {
        add_outcomes(&mut self.carried, &all);
        self.clock += u64::from(dwell);
        self.last = Some(all);
        self.mode = None;
    }
}
