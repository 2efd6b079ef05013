// What each line of a script is answered.
ghost use Rattle.std.specs.Prelude.{◌≡◌, Some, ◌≢◌};
ghost use Rattle.std.specs.Borrow.{sem};
ghost use Rattle.owed.specs.Calls.{number, lines_of as owed_lines, units_of as owed_units};
ghost use Rattle.simulator.specs.Made.{rule_number};
ghost use Rattle.script.specs.Requests.{request_of};
ghost use Rattle.script.specs.declared.commands.Command.TheVariants.{Lines, Fault};
ghost use Rattle.desk.specs.declared.stage.Stage.TheVariants.{Start, Rules};
ghost use Rattle.desk.specs.Replying.{stage_in, lines_in, units_in, stage_of, reply_of, Served, Shows, Answers};
ghost use Rattle.desk.specs.Lending.{LendsOwed};

use super::stage::Stage;
use kuhn::Kuhn;
use lines::{Decline, Downlink, Uplink};
use matching::letter_of;
use owed::{Owed, OwedDecline};
use planning::make_plan;
use replies::Reply;
use script::{Request, read_line};
use simulator::{FaultRule, RuleDecline, Simulator, add_rule};
use std::alloc::Global;

// The number of a line that is unreadable or out of its place. A number and no type of declines: only the desk gives it, and only as a reply.
const OUT_OF_PLACE: u16 = 19;

// How many modes the simulator takes.
const ROOM: u16 = 65535;

// What a script has led to so far.
#[derive(Drop)]
enum State {
    Start,
    Rules(Owed),
    Running(Owed),
}

// Answers the lines of a script.
#[derive(Drop)]
pub struct Desk {
    heap: Global,
    state: State,
    switch: Simulator,
}

// What a call replies, or else its decline's number.
fn told<D: Decline + Drop>(called: Result<Reply, D>) -> Reply
    ensures { result ≡ reply_of D.number called }
{
    match called {
        Ok(reply) => reply,
        Err(e) => Reply::No(e.number()),
    }
}

// What is told of the plan for what is owed.
fn plan_reply(heap: Global, owed: &Owed) -> Reply
    ensures { Shows (owed_lines owed.now) (owed_units owed.now) result }
{
    told(make_plan(heap, &Kuhn, owed).map(|plan| Reply::Planned {
        modes: plan.count(),
        length: plan.length(),
        letter: letter_of::<Kuhn>(),
    }))
}

impl State {
    // Where the script stands.
    fn stage(&self) -> Stage
        ensures { result ≡ stage_in self.now }
    {
        match self {
            State::Start => Stage::Start,
            State::Rules(_) => Stage::Rules,
            State::Running(_) => Stage::Running,
        }
    }

    // What is owed, for a request after which no fault rule may follow. Only the first such request moves the matrix.
    fn owed(&mut self) -> &mut Owed
        requires { stage_in self.old ≢ Start }
        ensures* writes_back { sem 𝓛 (LendsOwed self.entry result) }
        ensures lines { owed_lines result.now ≡ lines_in self.old }
        ensures units { owed_units result.now ≡ units_in self.old }
    {
        if let State::Rules(owed) = *self {
            *self = State::Running(owed);
        }
        match self {
            State::Running(owed) => owed,
            _ => unreachable(),
        }
    }
}

impl Desk {
    // The beginning of a script.
    pub fn new(heap: Global) -> Desk
        ensures { stage_of result ≡ Start }
    {
        Desk {
            heap,
            state: State::Start,
            switch: simulator::make(1, 0),
        }
    }

    // The lines are made, with nothing owed.
    fn make_lines(&mut self, lines: u16) -> Result<Reply, OwedDecline>
        requires { stage_of self.old ≡ Start }
        ensures { Served self.old (Lines lines) (reply_of number result) self.new }
    {
        let count = usize::from(lines);
        self.state = State::Rules(Owed::new(count)?);
        self.switch = simulator::make(count, ROOM);
        Ok(Reply::Ok)
    }

    // One more fault rule for the simulator.
    fn add_fault(
        &mut self,
        up: Uplink,
        down: Downlink,
        most: u16,
        from: u16,
    ) -> Result<Reply, RuleDecline>
        requires { stage_of self.old ≡ Rules }
        ensures { Served self.old (Fault up down most from) (reply_of rule_number result) self.new }
    {
        let rule = FaultRule {
            up,
            down,
            most,
            from: u64::from(from),
        };
        add_rule(&mut self.switch, rule)?;
        Ok(Reply::Ok)
    }

    // What a request is answered.
    fn answer(&mut self, request: Request) -> Reply
        ensures { Answers self.old (Some request) result self.new }
    {
        if !self.state.stage().admits(&request) {
            return Reply::No(OUT_OF_PLACE);
        }
        // a match and no table of functions: it is refused where a request is missing
        match request {
            Request::Lines(lines) => told(self.make_lines(lines)),
            Request::Fault {
                up,
                down,
                most,
                from,
            } => told(self.add_fault(up, down, most, from)),
            Request::Post { up, down, units } => {
                let owed = self.state.owed();
                told(owed.add(up, down, u32::from(units)).map(|()| Reply::Ok))
            }
            Request::Withdraw { up, down, units } => {
                let owed = self.state.owed();
                told(owed.take(up, down, u32::from(units)).map(|()| Reply::Ok))
            }
            Request::Owed { up, down } => {
                let owed = self.state.owed();
                told(owed.units(up, down).map(|units| Reply::Owed(units)))
            }
            Request::Plan => plan_reply(self.heap, self.state.owed()),
            Request::Step | Request::Run(_) | Request::Drop => Reply::No(OUT_OF_PLACE),
        }
    }

    // What a line is answered.
    pub fn answer_line(&mut self, line: &[u8]) -> Reply
        ensures { Answers self.old (request_of line.now) result self.new }
    {
        match read_line(line) {
            Some(request) => self.answer(request),
            None => Reply::No(OUT_OF_PLACE),
        }
    }
}
