// Reservations: 6 bytes each, an uplink, a downlink, units and a station.
ghost use Rattle.std.specs.Prelude.{◌≡◌, ◌%◌, length, if◌then◌else◌, Some, None, nat_eq, nat_lt};
ghost use Rattle.std.specs.Iterator.{YieldsFirst, item_count};
ghost use Rattle.records.specs.Reservations.{how_many, reservation_at, numbered, left};

use lines::{Downlink, Uplink};

// How many bytes a reservation has.
pub const RESERVATION_SIZE: usize = 6;

// Units that a station asks for at a crosspoint.
#[derive(Clone, Copy, PartialEq, Eq, Debug)]
pub struct Reservation {
    pub up: Uplink,
    pub down: Downlink,
    pub units: u16,
    pub station: u16,
}

// How many reservations the bytes hold, or none if their length is not whole reservations. One line as of the records, which a shared function would not shorten.
pub fn reservation_count(bytes: &[u8]) -> Option<usize>
    ensures { result ≡ (if nat_eq (length bytes.now % 6) 0 then Some (how_many bytes.now) else None) }
{
    (bytes.len() % RESERVATION_SIZE == 0).then_some(bytes.len() / RESERVATION_SIZE)
}

// The reservation that six bytes say.
fn reservation_in(bytes: &[u8; 6]) -> Reservation
    ensures { result ≡ reservation_at bytes.now 0 }
{
    let [up, down, units_high, units_low, station_high, station_low] = *bytes;
    Reservation {
        up: Uplink(u16::from(up)),
        down: Downlink(u16::from(down)),
        units: u16::from_be_bytes([units_high, units_low]),
        station: u16::from_be_bytes([station_high, station_low]),
    }
}

// Reservation n of the bytes, or none if it is not wholly there.
#[tactic(auto, using(crate::proofs::Chunks::chunk_at, crate::proofs::Reservations::reservation_in_part))]
pub fn read_reservation(bytes: &[u8], n: usize) -> Option<Reservation>
    ensures { result ≡ (if nat_lt n (how_many bytes.now) then Some (reservation_at bytes.now n) else None) }
{
    let (reservations, _) = bytes.as_chunks::<RESERVATION_SIZE>();
    let bytes = reservations.get(n)?;
    Some(reservation_in(bytes))
}

// The whole reservations of some bytes, in their order, each with its number. A trait for what this and the records' iterator read would be longer than the two.
#[derive(Drop)]
pub struct ReservationIter<'a> {
    bytes: &'a [u8],
    next: usize,
}

impl<'a> Iterator for ReservationIter<'a> {
    type Item = (usize, Reservation);

    ghost next_gives = { YieldsFirst left };

    ghost remaining = { item_count left };

    fn next(&mut self) -> Option<(usize, Reservation)> {
        let number = self.next;
        let reservation = read_reservation(self.bytes, number)?;
        self.next += 1;
        Some((number, reservation))
    }
}

// The whole reservations that the bytes hold, each with its number.
pub fn read_reservations(bytes: &[u8]) -> ReservationIter<'_>
    ensures { left result ≡ numbered bytes.now }
{
    ReservationIter { bytes, next: 0 }
}
