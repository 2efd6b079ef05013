// One call on a session, and lists of calls, with the law that holds of them all.
#![tactic(auto)]

ghost use Rattle.std.specs.Prelude.{◌≡◌, min, length, take, drop};
ghost use Rattle.switch.specs.Meaning.{Meaning};
ghost use Rattle.law.specs.History.{Made};
ghost use Rattle.law.specs.Stories.{Lawful, Performed};
ghost use Rattle.session.specs.Sessions.{state_of, PlannedBy};
ghost use Rattle.ledger.specs.Acted.{Acted};

use law::{Answer, Call};
use matching::Engine;
use session::Session;
use std::alloc::Global;
use switch::Switch;

// Gives a call to a session.
fn give<S: Switch, E: Engine>(session: &mut Session<S, E>, call: Call<'_>, out: &mut [u8]) -> Answer
    ensures { Acted (PlannedBy E.Engine.may) call.entry result out.old out.new (state_of S.meaning session.old) (state_of S.meaning session.new) }
{
    // a match and no table of functions: it is refused where a call is missing
    match call {
        Call::Post { up, down, units } => session.post(up, down, units).into(),
        Call::Withdraw { up, down, units } => session.withdraw(up, down, units).into(),
        Call::Batch(bytes) => session.batch(bytes).into(),
        Call::Plan => session.plan().into(),
        Call::Step => session.step().into(),
        Call::Run(budget) => session.run(budget).into(),
        Call::Drop => session.drop_plan().into(),
        Call::Owed { up, down } => session.owed(up, down).into(),
        Call::Busiest => session.busiest().into(),
        Call::ModesLeft => session.modes_left().into(),
        Call::LengthLeft => session.length_left().into(),
        Call::Write => session.write(out).into(),
    }
}

// Gives a call to a session. It does what is said of it, and with it the law holds of all calls since the making.
pub fn answer<S: Switch, E: Engine>(
    session: &mut Session<S, E>,
    call: Call<'_>,
    out: &mut [u8],
) -> Answer
    ensures { Lawful (PlannedBy E.Engine.may) call.entry result out.old out.new (state_of S.meaning session.old) (state_of S.meaning session.new) }
{
    give(session, call, out)
}

// Gives calls to a session in turn, as far as there is room for their answers.
fn give_all<S: Switch, E: Engine>(
    session: &mut Session<S, E>,
    calls: &[Call<'_>],
    answers: &mut [Answer],
    out: &mut [u8],
)
    ensures performed { (over : Meaning) → Made over (state_of S.meaning session.old) → Performed (PlannedBy E.Engine.may) over (take (min (length calls.now) (length answers.old)) calls.now) (take (min (length calls.now) (length answers.old)) answers.new) out.old out.new (state_of S.meaning session.new) }
    ensures untouched { drop (min (length calls.now) (length answers.old)) answers.new ≡ drop (min (length calls.now) (length answers.old)) answers.old }
{
    // By index and not by `zip`: after a `zip` over `iter_mut` no proof knows what was written.
    let n = calls.len().min(answers.len());
    for i in 0..n {
        answers[i] = answer(session, calls[i], out);
    }
}

// Makes a session over a switch and an engine, and gives it the calls in turn, as far as there is room for their answers. The law holds of them all.
pub fn perform<S: Switch, E: Engine>(
    heap: Global,
    switch: S,
    engine: E,
    calls: &[Call<'_>],
    answers: &mut [Answer],
    out: &mut [u8],
) -> Session<S, E>
    ensures performed { Performed (PlannedBy E.Engine.may) (S.meaning switch) (take (min (length calls.now) (length answers.old)) calls.now) (take (min (length calls.now) (length answers.old)) answers.new) out.old out.new (state_of S.meaning result) }
    ensures untouched { drop (min (length calls.now) (length answers.old)) answers.new ≡ drop (min (length calls.now) (length answers.old)) answers.old }
{
    let mut session = Session::new(heap, switch, engine);
    give_all(&mut session, calls, answers, out);
    session
}
