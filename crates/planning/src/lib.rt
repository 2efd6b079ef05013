// Making plans: the shortest schedule for what is owed, of an engine's matchings.
#![tactic(auto)]

mod calls;
mod decline;
mod make;
mod modes;
mod plan;
mod rest;

pub use decline::PlanDecline;
pub use make::make_plan;
pub use plan::Plan;
