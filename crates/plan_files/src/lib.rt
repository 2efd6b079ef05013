// Plan files: modes written as records into a caller's buffer, and read back.
#![tactic(auto)]

mod back;
mod decline;
mod read;
mod write;

pub use back::write_and_read;
pub use decline::{FileDecline, ReadDecline, WriteDecline};
pub use read::{PlanFile, read_modes};
pub use write::write_modes;
