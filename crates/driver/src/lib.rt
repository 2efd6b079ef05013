// The driver: programs open, grant, run and void a mode through a token that must be given back.
#![tactic(auto)]

ghost use Rattle.std.specs.Prelude.{◌≡◌, true, Option};
ghost use Rattle.lines.specs.Verdicts.{answered, or_same};
ghost use Rattle.switch.specs.Calls.{open_decline, opens, grant_decline, grants, RunTo, voids};
ghost use Rattle.driver.specs.Answers.{number, place, unspent, open_answer, grant_answer, spend_answer};
ghost use Rattle.switch.specs.declared.SwitchDecline.{SwitchDecline};

use lines::{Decline, Downlink, Place, Uplink};
use switch::{Switch, SwitchDecline};

// The token of a mode that is open. Run or void takes it back, and only then it is spent.
pub struct OpenMode {
    dwell: u16,
    spent: bool,
}

// Only a spent token may be let go. The driver hands out none, and nobody else can spend one, so a program that forgets an open mode is refused.
impl Drop for OpenMode {
    fn drop(self)
        requires { self.spent ≡ true }
    {
        let OpenMode { dwell: _, spent: _ } = self;
    }
}

impl OpenMode {
    // The dwell that it was opened with.
    pub fn dwell(&self) -> u16
        ensures { result ≡ self.now.dwell }
    {
        self.dwell
    }

    // A run or void that was accepted spends the token; one that was declined hands it back.
    fn spend(mut self, answer: Result<(), SwitchDecline>) -> Result<(), Unspent>
        ensures { (o : Option SwitchDecline) → answer ≡ answered o → result ≡ answered (unspent self o) }
    {
        match answer {
            Ok(()) => {
                self.spent = true;
                Ok(())
            }
            Err(e) => Err(Unspent {
                mode: self,
                decline: DriverDecline::from(e),
            }),
        }
    }
}

// Why the driver declined: the switch did.
#[derive(Clone, Copy, PartialEq, Eq, Debug)]
pub struct DriverDecline {
    pub switch: SwitchDecline,
}

impl From<SwitchDecline> for DriverDecline {
    ghost from_gives = { λ e d. d ≡ record { «switch» = e } };

    fn from(switch: SwitchDecline) -> DriverDecline {
        DriverDecline { switch }
    }
}

impl Decline for DriverDecline {
    ghost number = { number };

    ghost place = { place };

    fn number(&self) -> u16 {
        self.switch.number()
    }

    fn place(&self) -> Place {
        self.switch.place()
    }
}

// A declined run or void hands the open mode back.
pub struct Unspent {
    pub mode: OpenMode,
    pub decline: DriverDecline,
}

pub fn open<S: Switch>(s: &mut S, dwell: u16) -> Result<OpenMode, DriverDecline>
    ensures answer { result ≡ open_answer dwell (S.meaning s.old) }
    ensures after { S.meaning s.new ≡ or_same (open_decline dwell (S.meaning s.old)) (opens dwell (S.meaning s.old)) (S.meaning s.old) }
{
    s.open(dwell)?;
    Ok(OpenMode {
        dwell,
        spent: false,
    })
}

pub fn grant<S: Switch>(
    s: &mut S,
    _mode: &OpenMode,
    up: Uplink,
    down: Downlink,
    units: u16,
) -> Result<(), DriverDecline>
    ensures answer { result ≡ grant_answer up down units (S.meaning s.old) }
    ensures after { S.meaning s.new ≡ or_same (grant_decline up down units (S.meaning s.old)) (grants up down units (S.meaning s.old)) (S.meaning s.old) }
{
    s.grant(up, down, units)?;
    Ok(())
}

pub fn run<S: Switch>(s: &mut S, mode: OpenMode) -> Result<(), Unspent>
    ensures answer { result ≡ spend_answer mode (S.meaning s.old) }
    ensures after { RunTo (S.meaning s.old) (S.meaning s.new) }
{
    mode.spend(s.run())
}

pub fn void<S: Switch>(s: &mut S, mode: OpenMode) -> Result<(), Unspent>
    ensures answer { result ≡ spend_answer mode (S.meaning s.old) }
    ensures after { S.meaning s.new ≡ voids (S.meaning s.old) }
{
    mode.spend(s.void())
}
