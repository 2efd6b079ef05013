// A plan, and what each one keeps true.
ghost use Rattle.std.specs.Prelude.{◌≡◌, ◌≤◌, length as count};
ghost use Rattle.schedule.specs.Modes.{span};
ghost use Rattle.planning.specs.Kept.{DwellsFit, LinesFit, UnitsFit, Single, RowsWhole};

use lines::Lines;
use schedule::Mode;

// The modes of a schedule for some lines, and its length.
#[derive(Drop)]
pub struct Plan {
    pub(super) lines: Lines,
    pub(super) length: u32,
    pub(super) modes: Vec<Mode>,
    ghost some_mode: { 1 ≤ count modes.items },
    ghost few_modes: { count modes.items ≤ 241 },
    // each mode keeps the rules
    ghost dwells: { DwellsFit modes.items },
    ghost fits: { LinesFit lines.count modes.items },
    ghost units: { UnitsFit modes.items },
    ghost single: { Single modes.items },
    ghost rows: { RowsWhole modes.items },
    // the length is the sum of the dwells
    ghost total: { length ≡ span modes.items },
    ghost short: { length ≤ 65535 },
}
