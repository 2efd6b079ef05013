// A script's lines answered over the owed matrix.
#![tactic(auto)]

mod desk;
mod stage;

pub use desk::Desk;
pub use stage::Stage;
