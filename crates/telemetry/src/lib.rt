// A switch that carries what a file of mode records reports.
#![tactic(auto)]

mod carrying;
mod decline;
mod making;
mod report;
mod running;

pub use decline::TelemetryDecline;
pub use making::{Telemetry, check, make};
pub use report::Report;
pub use running::run;
