// What a session holds, and what each one keeps true.
ghost use Rattle.std.specs.Prelude.{◌≡◌, ℕ, ◌<◌, ◌≤◌};
ghost use Rattle.schedule.specs.Modes.{span, grants};
ghost use Rattle.owed.specs.Calls.{lines_of, units_of};
ghost use Rattle.session.specs.Standing.{place_of, count_of, left_of, length_of, lines_for};

use owed::Owed;
use planning::Plan;
use std::alloc::Global;

// No plan, or a plan with the place of its next mode and the length of the modes left.
// An enum and no Option, since the rules name both states, and a plan alone without its place would not do.
#[derive(Drop)]
pub enum State {
    Idle,
    Planned { plan: Plan, place: usize, left: u32 },
}

#[derive(Drop)]
pub struct Session<S, E> {
    pub(super) switch: S,
    pub(super) engine: E,
    pub(super) heap: Global,
    pub(super) owed: Owed,
    pub(super) state: State,
    // a plan has a next mode
    ghost next: { place_of state < count_of state },
    ghost length: { length_of state ≡ span (left_of state) },
    // the modes left grant no more than is owed
    ghost within: { (a b : ℕ) → grants (left_of state) a b ≤ units_of owed a b },
    // a plan is for the lines of the owed units
    ghost lines: { lines_for (lines_of owed) state ≡ lines_of owed },
}
