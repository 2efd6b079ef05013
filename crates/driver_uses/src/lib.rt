// Small programs over the driver. Their must-fail edits show that an open mode can't be forgotten, and that the one to go on with is the one that was opened.
// That a mode can't be used after its run is shown by tools/refused-programs, since such a program doesn't compile.
#![tactic(auto)]

ghost use Rattle.std.specs.Prelude.{◌≡◌};
ghost use Rattle.lines.specs.Verdicts.{answered, or_same};
ghost use Rattle.switch.specs.Calls.{open_decline, opens, mode_decline, voids};
ghost use Rattle.driver.specs.Answers.{round};
ghost use Rattle.driver_uses.specs.Programs.{Renews};

use driver::{DriverDecline, OpenMode, Unspent};
use switch::Switch;

// Opens a mode and voids it: it costs the room of a mode, and carries nothing.
pub fn skip_one<S: Switch>(s: &mut S, dwell: u16) -> Result<(), DriverDecline>
    ensures answer { result ≡ answered (round (open_decline dwell (S.meaning s.old))) }
    ensures after { S.meaning s.new ≡ or_same (open_decline dwell (S.meaning s.old)) (voids (opens dwell (S.meaning s.old))) (S.meaning s.old) }
{
    let mode = driver::open(s, dwell)?;
    driver::void(s, mode).unwrap();
    Ok(())
}

// Runs an open mode, and opens another to go on with. Where the run is declined, the same mode is handed back.
pub fn renew<S: Switch>(s: &mut S, mode: OpenMode, dwell: u16) -> Result<OpenMode, DriverDecline>
    ensures { Renews (mode_decline (S.meaning s.old)) mode dwell (S.meaning s.old) (S.meaning s.new) result }
{
    match driver::run(s, mode) {
        Ok(()) => driver::open(s, dwell),
        Err(Unspent { mode, decline: _ }) => Ok(mode),
    }
}
