// A run of a telemetry switch, with what it carries.
ghost use Rattle.std.specs.Prelude.{◌≡◌};
ghost use Rattle.lines.specs.Verdicts.{answered};
ghost use Rattle.switch.specs.Calls.{mode_decline};
ghost use Rattle.crossbar.specs.Carries.{runs_by};
ghost use Rattle.crossbar.specs.Shown.{shown};
ghost use Rattle.telemetry.specs.Reports.{reports};

use super::making::Telemetry;
use switch::{Switch, SwitchDecline};

// The switch's run: each grant carries what the record that was taken up reports.
// A crossbar's run is one for all carriers, and can speak of its carrier only; this one states what that is under a file.
pub fn run(s: &mut Telemetry<'_>) -> Result<(), SwitchDecline>
    ensures answer { result ≡ answered (mode_decline (shown s.old.fabric)) }
    ensures exact { shown s.new.fabric ≡ runs_by (λ t r i j u. reports s.old.carrier.file.now r i j u) (shown s.old.fabric) }
    ensures records { s.new.carrier ≡ s.old.carrier }
{
    s.run()
}
