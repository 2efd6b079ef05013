// The units that are owed, and the calls that change them.
#![tactic(auto)]

mod calls;
mod decline;
mod matrix;
mod sums;

pub use decline::OwedDecline;
pub use matrix::{LIMIT, Owed};

#[cfg(test)]
mod tests {
    use super::{LIMIT, Owed, OwedDecline};
    use lines::{Downlink, Line, Uplink};
    use std::test::Fail;

    #[test]
    fn a_full_line_takes_no_more(rt: HostRuntime) -> Result<(), Fail> {
        let mut owed = Owed::new(3)?;
        assert_eq!(rt; owed.add(Uplink(0), Downlink(0), LIMIT), Ok(()));
        let full = Err(OwedDecline::LineFull(Line::Up(Uplink(0))));
        assert_eq!(rt; owed.add(Uplink(0), Downlink(1), 1), full);
        let full = Err(OwedDecline::LineFull(Line::Down(Downlink(0))));
        assert_eq!(rt; owed.add(Uplink(2), Downlink(0), 1), full);
        assert_eq!(rt; owed.units(Uplink(0), Downlink(0)), Ok(LIMIT));
        assert_eq!(rt; owed.busiest(), LIMIT);
        Ok(())
    }

    #[test]
    fn the_largest_numbers_are_declined(rt: HostRuntime) -> Result<(), Fail> {
        let mut owed = Owed::new(16)?;
        let above = Err(OwedDecline::LineAbove(Line::Up(Uplink(65535))));
        assert_eq!(rt; owed.add(Uplink(65535), Downlink(65535), u32::MAX), above);
        let full = Err(OwedDecline::LineFull(Line::Up(Uplink(15))));
        assert_eq!(rt; owed.add(Uplink(15), Downlink(15), u32::MAX), full);
        assert_eq!(rt; owed.busiest(), 0);
        Ok(())
    }
}
