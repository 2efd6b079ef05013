// A crossbar: a switch whose runs carry what its carrier says.
#![tactic(auto)]

mod acts;
mod carrier;
mod carry;
mod fabric;
mod held;
mod make;
mod mode;
mod rules;

pub use carrier::{Carrier, Start};
pub use held::Crossbar;
pub use make::lines_outside;
