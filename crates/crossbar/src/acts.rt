// A crossbar as a switch.
ghost use Rattle.std.specs.Prelude.{◌≡◌};
ghost use Rattle.lines.specs.Verdicts.{answered, or_same};
ghost use Rattle.switch.specs.Calls.{open_decline, opens, grant_decline, grants, mode_decline, voids, RunTo};
ghost use Rattle.crossbar.specs.Carries.{runs_by};
ghost use Rattle.crossbar.specs.Shown.{shown};
ghost use Rattle.std.proofs.Common.{rules};

use super::carrier::{Carrier, Start};
use super::carry::outcomes;
use super::held::Crossbar;
use super::rules::{check_grant, inside};
use lines::{Downlink, Line, Uplink};
use schedule::{Join, Mode};
use switch::{Outcome, Switch, SwitchDecline};

impl<C: Carrier> Switch for Crossbar<C> {
    ghost meaning = { λ s. shown s.fabric };

    ghost sound = { Prim.search rules };

    fn open(&mut self, dwell: u16) -> Result<(), SwitchDecline>
        ensures answer { result ≡ answered (open_decline dwell (shown self.old.fabric)) }
        ensures after { shown self.new.fabric ≡ or_same (open_decline dwell (shown self.old.fabric)) (opens dwell (shown self.old.fabric)) (shown self.old.fabric) }
        ensures carrier { self.new.carrier ≡ self.old.carrier }
    {
        let fabric = &mut self.fabric;
        if fabric.mode.is_some() {
            return Err(SwitchDecline::ModeOpen);
        }
        if dwell == 0 {
            return Err(SwitchDecline::BadUnits);
        }
        if fabric.room == 0 {
            return Err(SwitchDecline::NoRoom);
        }
        fabric.room -= 1;
        fabric.mode = Some(Mode {
            dwell,
            row: [None; 16],
        });
        Ok(())
    }

    fn grant(&mut self, up: Uplink, down: Downlink, units: u16) -> Result<(), SwitchDecline>
        ensures answer { result ≡ answered (grant_decline up down units (shown self.old.fabric)) }
        ensures after { shown self.new.fabric ≡ or_same (grant_decline up down units (shown self.old.fabric)) (grants up down units (shown self.old.fabric)) (shown self.old.fabric) }
        ensures carrier { self.new.carrier ≡ self.old.carrier }
    {
        let fabric = &mut self.fabric;
        let mode = fabric.open_mode()?;
        check_grant(fabric.lines, &mode, up, down, units)?;
        let Mode { dwell, mut row } = mode;
        row[usize::from(up.0)] = Some(Join { down, units });
        fabric.mode = Some(Mode { dwell, row });
        Ok(())
    }

    // What each grant carries is what the carrier says.
    fn run(&mut self) -> Result<(), SwitchDecline>
        ensures answer { result ≡ answered (mode_decline (shown self.old.fabric)) }
        ensures after { RunTo (shown self.old.fabric) (shown self.new.fabric) }
        ensures exact { shown self.new.fabric ≡ runs_by (C.Carrier.carries self.old.carrier) (shown self.old.fabric) }
        ensures carrier { self.new.carrier ≡ self.old.carrier }
    {
        let mode = self.fabric.open_mode()?;
        let start = Start {
            clock: self.fabric.clock,
            room: self.fabric.room,
        };
        let all = outcomes(&self.carrier, start, &mode.row);
        self.fabric.close(mode.dwell, all);
        Ok(())
    }

    fn void(&mut self) -> Result<(), SwitchDecline>
        ensures answer { result ≡ answered (mode_decline (shown self.old.fabric)) }
        ensures after { shown self.new.fabric ≡ voids (shown self.old.fabric) }
        ensures carrier { self.new.carrier ≡ self.old.carrier }
    {
        self.fabric.open_mode()?;
        self.fabric.mode = None;
        Ok(())
    }

    fn lines(&self) -> usize {
        self.fabric.lines.count()
    }

    fn room(&self) -> u16 {
        self.fabric.room
    }

    fn clock(&self) -> u64 {
        self.fabric.clock
    }

    fn carried(&self, up: Uplink, down: Downlink) -> Result<u64, SwitchDecline> {
        let i = inside(self.fabric.lines, Line::Up(up))?;
        let j = inside(self.fabric.lines, Line::Down(down))?;
        Ok(self.fabric.carried[i][j])
    }

    fn dwell(&self) -> Option<u16> {
        self.fabric.mode.as_ref().map(|mode| mode.dwell)
    }

    fn granted(&self, up: Uplink) -> Result<Option<Join>, SwitchDecline> {
        let i = inside(self.fabric.lines, Line::Up(up))?;
        Ok(self.fabric.mode.as_ref().and_then(|mode| mode.row[i]))
    }

    fn last(&self, up: Uplink) -> Result<Option<Outcome>, SwitchDecline> {
        let i = inside(self.fabric.lines, Line::Up(up))?;
        Ok(self.fabric.last.as_ref().and_then(|row| row[i]))
    }
}
