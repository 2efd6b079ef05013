// The owed matrix, and what each one keeps true.
ghost use Rattle.std.specs.Prelude.{◌≤◌};
ghost use Rattle.lines.specs.Matrix.{cells, busiest, Blank};
ghost use Rattle.owed.specs.Limits.{limit};

use lines::Lines;

// The most units that a line may be owed.
pub const LIMIT: u32 = 65535;

// The units owed at each crosspoint of some uplinks and as many downlinks.
#[derive(Clone, Copy)]
pub struct Owed {
    pub(super) lines: Lines,
    pub(super) rows: [[u32; 16]; 16],
    ghost limited: { busiest lines.count (cells rows) ≤ limit },
    // nothing stands outside the lines
    ghost blank: { Blank lines.count (cells rows) },
}
