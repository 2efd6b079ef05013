// A session over a switch and an engine: bookings, plans, and the modes that run.
#![tactic(auto)]

mod bookings;
mod plans;
mod running;
mod state;

pub use state::{Session, State};
