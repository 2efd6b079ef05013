// A whole mode, run on any switch.
#![tactic(auto)]

ghost use Rattle.std.specs.Prelude.{◌≡◌, ℕ, ◌<◌, true, length, None, slice_index_or};
ghost use Rattle.schedule.specs.Modes.{Sound};
ghost use Rattle.switch.specs.Meaning.{is_open};
ghost use Rattle.switch.specs.Calls.{mode as mode_with, voids};
ghost use Rattle.steps.specs.WholeMode.{Fresh, GrantsRow, Ready, seen, RanWith, Whole, Runs};

use driver::{DriverDecline, OpenMode};
use lines::Uplink;
use schedule::{Join, Mode};
use std::array;
use switch::{Outcome, Switch};

// The grants of a row, by rising uplink, up to one that is declined.
fn grant_row<S: Switch>(
    s: &mut S,
    token: &OpenMode,
    row: &[Option<Join>; 16],
) -> Result<(), DriverDecline>
    requires { Fresh token.now.dwell (S.meaning s.old) }
    ensures { GrantsRow (mode_with token.now.dwell row.now) (S.meaning s.old) (S.meaning s.new) result }
{
    for (i, entry) in row.iter().enumerate() {
        if let Some(join) = *entry {
            driver::grant(s, token, Uplink(i as u16), join.down, join.units)?;
        }
    }
    Ok(())
}

// What an uplink did in the last run; nothing where the switch does not have it.
fn outcome<S: Switch>(s: &S, i: usize) -> Option<Outcome>
    requires { i < 16 }
    ensures { result ≡ seen (S.meaning s.now) i }
{
    s.last(Uplink(i as u16)).ok().flatten()
}

// What each uplink did in the last run.
fn last_run<S: Switch>(s: &S) -> [Option<Outcome>; 16]
    ensures sixteen { length result ≡ 16 }
    ensures each { (i : ℕ) → i < 16 → slice_index_or result i None ≡ seen (S.meaning s.now) i }
{
    array::from_fn(|i| outcome(s, i))
}

// Runs the open mode, and answers what its grants carried.
fn finish<S: Switch>(s: &mut S, token: OpenMode) -> [Option<Outcome>; 16]
    requires { Ready (S.meaning s.old) }
    ensures { RanWith result (S.meaning s.old) (S.meaning s.new) }
{
    driver::run(s, token).unwrap();
    last_run(s)
}

// Voids the open mode.
fn give_up<S: Switch>(s: &mut S, token: OpenMode)
    requires { is_open (S.meaning s.old).mode ≡ true }
    ensures { S.meaning s.new ≡ voids (S.meaning s.old) }
{
    driver::void(s, token).unwrap();
}

// Opens a mode, makes its grants by rising uplink and runs it. Where a grant is declined, the mode is voided.
pub fn run_mode<S: Switch>(s: &mut S, mode: &Mode) -> Result<[Option<Outcome>; 16], DriverDecline>
    ensures whole { Whole mode.now (S.meaning s.old) (S.meaning s.new) result }
    ensures sound { Sound (S.meaning s.old).lines mode.now → Runs mode.now (S.meaning s.old) (S.meaning s.new) result }
{
    let token = driver::open(s, mode.dwell)?;
    match grant_row(s, &token, &mode.row) {
        Ok(()) => Ok(finish(s, token)),
        Err(e) => {
            give_up(s, token);
            Err(e)
        }
    }
}
