// The worked cases of the rules, proved for the definitions that the contracts use.
#![tactic(auto)]

ghost use Rattle.std.specs.Prelude.{◌≡◌, true, Err};
ghost use Rattle.lines.specs.declared.Line.TheVariants.{Up};
ghost use Rattle.lines.specs.Matrix.{uplink};
ghost use Rattle.owed.specs.declared.decline.OwedDecline.TheVariants.{LineFull};
ghost use Rattle.worked_cases.specs.Worked.{Worked};

use lines::{Decline, Downlink, Uplink};
use owed::{LIMIT, Owed, OwedDecline};

// One more unit for an uplink that is owed as much as a line takes.
fn one_too_many() -> Result<(), OwedDecline>
    ensures full { result ≡ Err (LineFull (Up (uplink 0))) }
    ensures worked { Worked }
{
    let mut owed = Owed::new(3)?;
    owed.add(Uplink(0), Downlink(0), LIMIT)?;
    owed.add(Uplink(0), Downlink(1), 1)
}

// The worked cases hold, and the owed matrix gives 7 in one of them.
pub fn worked_cases() -> bool
    ensures told { result ≡ true }
    ensures worked { Worked }
{
    one_too_many().is_err_and(|e| e.number() == 7)
}
