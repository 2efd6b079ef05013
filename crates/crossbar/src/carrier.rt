// What decides how much each grant of a run carries.
ghost use Rattle.std.specs.Prelude.{◌≡◌, ◌≤◌};
ghost use Rattle.crossbar.specs.Carries.{Carry};

use lines::{Downlink, Uplink};

// The clock and the room of a switch as a run starts.
#[derive(Clone, Copy)]
pub struct Start {
    pub clock: u64,
    pub room: u16,
}

pub trait Carrier {
    ghost carries: { Self → Carry };

    // No grant carries more than its units.
    fn carry(&self, start: Start, up: Uplink, down: Downlink, units: u16) -> u16
        ensures exact { result ≡ carries self.now start.clock start.room up.0 down.0 units }
        ensures within { result ≤ units };
}
