// The records of files: reservations and modes.
#![tactic(auto)]

mod record;
mod reservation;

pub use record::{
    ENTRIES, Entry, NO_GRANT, RECORD_SIZE, Record, RecordIter, UNUSED, read_record, read_records,
    record_count,
};
pub use reservation::{
    RESERVATION_SIZE, Reservation, ReservationIter, read_reservation, read_reservations,
    reservation_count,
};
