// The calls on a session and its answers, what each call does, and the law of every list of calls.
#![tactic(auto)]

mod answer;
mod call;
mod decline;
mod stands;

pub use answer::{Answer, PlanSize, RunEnd, Step};
pub use call::Call;
pub use decline::{Layer, SessionDecline};
pub use runs::{Cause, Shortfall};
pub use stands::{Planning, law_stands};
