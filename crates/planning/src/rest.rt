// What is left to plan, and what stays true of it.
ghost use Rattle.std.specs.Prelude.{◌≤◌};
ghost use Rattle.lines.specs.Matrix.{cells, Even, Blank};
ghost use Rattle.schedule.specs.Modes.{longest_dwell};

use lines::Lines;

// The padded numbers and the units owed that no mode has yet.
#[derive(Drop)]
pub(super) struct Rest {
    pub(super) lines: Lines,
    // the sum of each line of the padded numbers, and so the length of the modes to come
    pub(super) left: u32,
    pub(super) padded: [[u32; 16]; 16],
    pub(super) unplanned: [[u32; 16]; 16],
    ghost short: { left ≤ longest_dwell },
    ghost even: { Even lines.count left (cells padded) },
    ghost blank: { Blank lines.count (cells padded) },
}
