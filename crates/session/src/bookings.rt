// A session's making, and the calls on what is owed.
ghost use Rattle.std.specs.Prelude.{◌≡◌, ◌==◌, Option, Some, MatchResult};
ghost use Rattle.owed.specs.Calls.{lines_of};
ghost use Rattle.law.specs.declared.call.Call.TheVariants.{Post, Withdraw, Batch, Owed as AskOwed, Busiest};
ghost use Rattle.law.specs.declared.answer.Answer.TheVariants.{Units};
ghost use Rattle.law.specs.declared.decline.SessionDecline.{SessionDecline as Declined};
ghost use Rattle.law.specs.Refusals.{unless_planned};
ghost use Rattle.law.specs.History.{Made};
ghost use Rattle.session.specs.declared.state.State.TheVariants.{Idle};
ghost use Rattle.session.specs.Standing.{standing, lines_for};
ghost use Rattle.session.specs.Sessions.{state_of, PlannedBy, Acts, accepted, answer_of};

use super::state::{Session, State};
use booking::post_batch;
use law::SessionDecline;
use lines::{Downlink, Uplink};
use matching::Engine;
use owed::Owed;
use std::alloc::Global;
use switch::Switch;

impl<S: Switch, E: Engine> Session<S, E> {
    // A session with nothing owed and no plan. A mode that is open on the switch is voided.
    pub fn new(heap: Global, mut switch: S, engine: E) -> Session<S, E>
        ensures { Made (S.meaning switch) (state_of S.meaning result) }
    {
        let _ = switch.void();
        let Ok(owed) = Owed::new(switch.lines()) else {
            unreachable()
        };
        Session {
            switch,
            engine,
            heap,
            owed,
            state: State::Idle,
        }
    }

    // Whether the switch has the lines that units are owed on, as it always has.
    pub(super) fn agrees(&self) -> bool
        ensures { result ≡ ((S.meaning self.now.«switch»).lines == lines_of self.now.owed) }
    {
        self.switch.lines() == self.owed.lines()
    }

    // Lets go of a plan for other lines than the switch has: such a plan stands nowhere.
    pub(super) fn refresh(&mut self)
        ensures same { state_of S.meaning self.new ≡ state_of S.meaning self.old }
        ensures plan { (state_of S.meaning self.new).plan ≡ standing self.new.state }
        ensures lines { lines_for (S.meaning self.new.«switch»).lines self.new.state ≡ (S.meaning self.new.«switch»).lines }
    {
        if !self.agrees() {
            self.state = State::Idle;
        }
    }

    // Declines while a plan stands.
    pub(super) fn without_plan(&mut self) -> Result<(), SessionDecline>
        ensures same { state_of S.meaning self.new ≡ state_of S.meaning self.old }
        ensures free { MatchResult result (λ _. self.new.state ≡ Idle) (λ d. (next : Option Declined) → unless_planned (state_of S.meaning self.new).plan next ≡ Some d) }
    {
        self.refresh();
        match self.state {
            State::Idle => Ok(()),
            State::Planned { .. } => Err(SessionDecline::PlanStands),
        }
    }

    // Adds units to those owed at a crosspoint.
    pub fn post(&mut self, up: Uplink, down: Downlink, units: u32) -> Result<(), SessionDecline>
        ensures { Acts (PlannedBy E.Engine.may) (Post up down units) (accepted result) (state_of S.meaning self.old) (state_of S.meaning self.new) }
    {
        self.without_plan()?;
        self.owed.add(up, down, units)?;
        Ok(())
    }

    // Takes units off those owed at a crosspoint.
    pub fn withdraw(&mut self, up: Uplink, down: Downlink, units: u32) -> Result<(), SessionDecline>
        ensures { Acts (PlannedBy E.Engine.may) (Withdraw up down units) (accepted result) (state_of S.meaning self.old) (state_of S.meaning self.new) }
    {
        self.without_plan()?;
        self.owed.take(up, down, units)?;
        Ok(())
    }

    // Posts reservations, all of them or none.
    pub fn batch(&mut self, bytes: &[u8]) -> Result<(), SessionDecline>
        ensures { Acts (PlannedBy E.Engine.may) (Batch bytes.entry) (accepted result) (state_of S.meaning self.old) (state_of S.meaning self.new) }
    {
        self.without_plan()?;
        post_batch(&mut self.owed, bytes)
    }

    // The units owed at a crosspoint.
    pub fn owed(&self, up: Uplink, down: Downlink) -> Result<u32, SessionDecline>
        ensures { Acts (PlannedBy E.Engine.may) (AskOwed up down) (answer_of Units result) (state_of S.meaning self.now) (state_of S.meaning self.now) }
    {
        Ok(self.owed.units(up, down)?)
    }

    // The largest line sum.
    pub fn busiest(&self) -> u32
        ensures { Acts (PlannedBy E.Engine.may) Busiest (Units result) (state_of S.meaning self.now) (state_of S.meaning self.now) }
    {
        self.owed.busiest()
    }
}
