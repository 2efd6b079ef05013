// The plan of a session: it is made, ended, asked for and written.
ghost use Rattle.std.specs.Prelude.{[], ◌≡◌};
ghost use Rattle.law.specs.declared.call.Call.TheVariants.{Plan as ToPlan, Drop as ToDrop, ModesLeft, LengthLeft, Write as ToWrite};
ghost use Rattle.law.specs.declared.answer.Answer.TheVariants.{Planned, Units, Wrote};
ghost use Rattle.law.specs.Calls.{Does};
ghost use Rattle.session.specs.Sessions.{state_of, PlannedBy, Acts, accepted, answer_of, plan_declined};

use super::state::{Session, State};
use law::{PlanSize, SessionDecline};
use matching::Engine;
use plan_files::write_modes;
use planning::{PlanDecline, make_plan};
use switch::Switch;

// A function and no `From`: both types are of other crates, and neither of those uses the other.
fn declined(decline: PlanDecline) -> SessionDecline
    ensures { result ≡ plan_declined decline }
{
    match decline {
        PlanDecline::NothingOwed => SessionDecline::NothingOwed,
        PlanDecline::NoMemory => SessionDecline::NoMemory,
    }
}

impl<S: Switch, E: Engine> Session<S, E> {
    // Makes a plan for what is owed, and takes it up.
    pub fn plan(&mut self) -> Result<PlanSize, SessionDecline>
        ensures { Acts (PlannedBy E.Engine.may) ToPlan (answer_of Planned result) (state_of S.meaning self.old) (state_of S.meaning self.new) }
    {
        self.without_plan()?;
        let plan = make_plan(self.heap, &self.engine, &self.owed).map_err(declined)?;
        // for other lines than the switch has, no plan could stand
        if !self.agrees() {
            return Err(SessionDecline::NoMemory);
        }
        let modes = plan.count();
        let length = plan.length();
        self.state = State::Planned {
            plan,
            place: 0,
            left: length,
        };
        Ok(PlanSize { modes, length })
    }

    // Ends the plan. What is owed stays.
    pub fn drop_plan(&mut self) -> Result<(), SessionDecline>
        ensures { Acts (PlannedBy E.Engine.may) ToDrop (accepted result) (state_of S.meaning self.old) (state_of S.meaning self.new) }
    {
        self.refresh();
        let State::Planned { .. } = self.state else {
            return Err(SessionDecline::NoPlan);
        };
        self.state = State::Idle;
        Ok(())
    }

    // The number of modes left.
    pub fn modes_left(&self) -> u32
        ensures { Acts (PlannedBy E.Engine.may) ModesLeft (Units result) (state_of S.meaning self.now) (state_of S.meaning self.now) }
    {
        match &self.state {
            // it fits, since a plan has at most 241 modes
            State::Planned { plan, place, .. } if self.agrees() => (plan.count() - *place) as u32,
            _ => 0,
        }
    }

    // The length of the modes left.
    pub fn length_left(&self) -> u32
        ensures { Acts (PlannedBy E.Engine.may) LengthLeft (Units result) (state_of S.meaning self.now) (state_of S.meaning self.now) }
    {
        match &self.state {
            State::Planned { left, .. } if self.agrees() => *left,
            _ => 0,
        }
    }

    // Writes the modes left as records into the front of a buffer. The bytes after them keep their content.
    pub fn write(&self, out: &mut [u8]) -> Result<usize, SessionDecline>
        ensures { Does (PlannedBy E.Engine.may) ToWrite (answer_of Wrote result) [] out.old out.new (state_of S.meaning self.now) (state_of S.meaning self.now) }
    {
        let State::Planned { plan, place, .. } = &self.state else {
            return Err(SessionDecline::NoPlan);
        };
        if !self.agrees() {
            return Err(SessionDecline::NoPlan);
        }
        Ok(write_modes(plan.lines(), &plan.modes()[*place..], out)?)
    }
}
