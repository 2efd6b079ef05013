// Cases of the switches, the driver and the whole mode, run.
#![tactic(auto)]

#[cfg(test)]
mod driven;
#[cfg(test)]
mod faults;
#[cfg(test)]
mod reports;
#[cfg(test)]
mod shared;
