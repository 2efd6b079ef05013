// Owed matrices.
use lines::{Downlink, Uplink};
use owed::Owed;
use std::test::Fail;

// A matrix with these units: an uplink, a downlink, and how many it is owed there.
pub(super) fn owes(lines: usize, crosspoints: &[(u16, u16, u32)]) -> Result<Owed, Fail> {
    let mut owed = Owed::new(lines)?;
    for (up, down, units) in crosspoints {
        owed.add(Uplink(*up), Downlink(*down), *units)?;
    }
    Ok(owed)
}
