// A simulator of a switch, with fault rules.
#![tactic(auto)]

mod carrying;
mod decline;
mod list;
mod making;
mod rules;
mod running;

pub use decline::{RuleDecline, SimulatorDecline};
pub use making::{Simulator, add_rule, check, make};
pub use rules::{FaultRule, FaultRules};
pub use running::run;
