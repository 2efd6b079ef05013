// Running the modes of a plan.
ghost use Rattle.std.specs.Prelude.{◌≡◌, ◌<◌, ◌≤◌};
ghost use Rattle.session.specs.Standing.{place_of, count_of, length_of, onward_of};
ghost use Rattle.schedule.specs.Modes.{Sound};
ghost use Rattle.steps.specs.WholeMode.{Runs};
ghost use Rattle.law.specs.declared.call.Call.TheVariants.{Step as ToStep, Run as ToRun};
ghost use Rattle.law.specs.declared.answer.Answer.TheVariants.{Stepped, Ran};
ghost use Rattle.law.specs.States.{stands as standing_plan};
ghost use Rattle.session.specs.Sessions.{state_of, PlannedBy, Acts, answer_of};

use super::state::{Session, State};
use booking::{fell_short, settle};
use driver::DriverDecline;
use law::{Cause, RunEnd, SessionDecline, Step};
use matching::Engine;
use schedule::Mode;
use steps::run_mode;
use switch::{Outcome, Switch};

// Goes on to the next place of a plan, which ends after its last mode.
fn go_on(state: &mut State, dwell: u16)
    requires next { place_of state.old < count_of state.old }
    requires lasts { dwell ≤ length_of state.old }
    ensures { state.new ≡ onward_of dwell state.old }
{
    match state {
        State::Idle => {}
        State::Planned { plan, place, left } => {
            *left -= u32::from(dwell);
            *place += 1;
            if *place >= plan.count() {
                *state = State::Idle;
            }
        }
    }
}

// Runs a mode of a plan on a switch. Only what holds of the modes of a plan is told.
fn run_planned<S: Switch>(s: &mut S, mode: &Mode) -> Result<[Option<Outcome>; 16], DriverDecline>
    ensures { Sound (S.meaning s.old).lines mode.now → Runs mode.now (S.meaning s.old) (S.meaning s.new) result }
{
    run_mode(s, mode)
}

impl<S: Switch, E: Engine> Session<S, E> {
    // Whether a plan stands.
    fn stands(&self) -> bool
        ensures { result ≡ standing_plan (state_of S.meaning self.now).plan }
    {
        match self.state {
            State::Idle => false,
            State::Planned { .. } => self.agrees(),
        }
    }

    // Runs the next mode. What it carried leaves the owed units.
    pub fn step(&mut self) -> Result<Step, SessionDecline>
        ensures { Acts (PlannedBy E.Engine.may) ToStep (answer_of Stepped result) (state_of S.meaning self.old) (state_of S.meaning self.new) }
    {
        self.refresh();
        let State::Planned { plan, place, .. } = &self.state else {
            return Err(SessionDecline::NoPlan);
        };
        let (mode, number) = (plan.modes()[*place], *place);
        let outcomes = run_planned(&mut self.switch, &mode).map_err(|decline| SessionDecline::Mode {
            number,
            decline,
        })?;
        settle(&mut self.owed, &outcomes);
        go_on(&mut self.state, mode.dwell);
        Ok(Step {
            number,
            dwell: mode.dwell,
            short: fell_short(&outcomes),
        })
    }

    // Steps up to so many modes, and answers how many ran and why it stopped.
    pub fn run(&mut self, budget: u16) -> Result<RunEnd, SessionDecline>
        ensures { Acts (PlannedBy E.Engine.may) (ToRun budget) (answer_of Ran result) (state_of S.meaning self.old) (state_of S.meaning self.new) }
    {
        if !self.stands() {
            return Err(SessionDecline::NoPlan);
        }
        if budget == 0 {
            return Err(SessionDecline::NoBudget);
        }
        for count in 0..budget {
            let step = match self.step() {
                Ok(step) => step,
                Err(decline) => {
                    // the first mode's decline is the run's own, a later one only stops it
                    if count == 0 {
                        return Err(decline);
                    }
                    return Ok(RunEnd {
                        count,
                        cause: Cause::Stop,
                    });
                }
            };
            let ran = count + 1;
            if !self.stands() {
                return Ok(RunEnd {
                    count: ran,
                    cause: Cause::End,
                });
            }
            if step.short.is_some() {
                return Ok(RunEnd {
                    count: ran,
                    cause: Cause::Short,
                });
            }
        }
        Ok(RunEnd {
            count: budget,
            cause: Cause::Budget,
        })
    }
}
