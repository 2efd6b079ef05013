// What the cases have in common: one mode, with units from uplink 0 to downlink 1.
use lines::{Downlink, Uplink};
use schedule::Join;
use switch::{Switch, SwitchDecline};

pub(super) fn join(down: u16, units: u16) -> Join {
    Join {
        down: Downlink(down),
        units,
    }
}

// Runs a mode whose dwell are the units granted.
pub(super) fn run_units<S: Switch>(s: &mut S, units: u16) -> Result<(), SwitchDecline> {
    s.open(units)?;
    s.grant(Uplink(0), Downlink(1), units)?;
    s.run()
}

pub(super) fn carried<S: Switch>(s: &S) -> Result<u64, SwitchDecline> {
    s.carried(Uplink(0), Downlink(1))
}
