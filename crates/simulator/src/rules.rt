// Fault rules.
ghost use Rattle.std.specs.Prelude.{◌≡◌, ◌≤◌, length};

use lines::{Downlink, Uplink};

// In a run that starts at clock `from` or later, a crosspoint carries at most `most` units.
#[derive(Clone, Copy, PartialEq, Eq, Debug)]
pub struct FaultRule {
    pub up: Uplink,
    pub down: Downlink,
    pub most: u16,
    pub from: u64,
}

// The first `count` of the rules hold; the others are not used.
// An array and a count, since a simulator is made and copied without memory of its own, and the kit's ArrayVec is not Copy.
#[derive(Clone, Copy)]
pub struct FaultRules {
    pub(super) rules: [FaultRule; 32],
    pub(super) count: usize,
    ghost few: { count ≤ 32 },
    ghost all: { length rules ≡ 32 },
}
