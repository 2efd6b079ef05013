// The checker of schedules: whether a file of mode records serves exactly what is owed.
#![tactic(auto)]

mod decline;
mod tally;
mod verdict;

pub use decline::CheckDecline;
pub use verdict::{Checked, check};
