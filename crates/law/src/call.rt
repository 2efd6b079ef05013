// The calls on a session.
use lines::{Downlink, Uplink};

#[derive(Clone, Copy)]
pub enum Call<'a> {
    Post {
        up: Uplink,
        down: Downlink,
        units: u32,
    },
    Withdraw {
        up: Uplink,
        down: Downlink,
        units: u32,
    },
    // Reservation records, as bytes.
    Batch(&'a [u8]),
    Plan,
    Step,
    // Up to so many modes.
    Run(u16),
    Drop,
    Owed {
        up: Uplink,
        down: Downlink,
    },
    Busiest,
    ModesLeft,
    LengthLeft,
    // The modes left, into the buffer that stands beside the call.
    Write,
}
