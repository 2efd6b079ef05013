// What a crossbar holds beside its carrier, and what it keeps true.
ghost use Rattle.std.specs.Prelude.{◌≡◌, ℕ, ◌+◌, ◌*◌, ◌<◌, ◌≤◌, [], length, slice_index_or};
ghost use Rattle.lines.specs.Matrix.{cells};
ghost use Rattle.switch.specs.Meaning.{dwell_of, row_of};
ghost use Rattle.crossbar.specs.Kept.{under_way, units_held, down_held};

use lines::Lines;
use schedule::Mode;
use switch::Outcome;

#[derive(Drop)]
pub struct Fabric {
    pub(super) lines: Lines,
    pub(super) room: u16,
    pub(super) clock: u64,
    pub(super) carried: [[u64; 16]; 16],
    pub(super) mode: Option<Mode>,
    pub(super) last: Option<[Option<Outcome>; 16]>,
    // each mode that is left, and one that is under way, adds at most 65,535 to the clock
    ghost time_left: { clock + 65535 * room + under_way mode ≤ 65535 * 65535 },
    ghost rows: { (i : ℕ) → i < 16 → length (slice_index_or carried i []) ≡ 16 },
    ghost carried_in_time: { (i j : ℕ) → cells carried i j ≤ clock },
    // a grant's units are within the dwell, and its downlink is one of sixteen
    ghost units_kept: { (i : ℕ) → units_held mode i ≤ dwell_of mode },
    ghost downs_kept: { (i : ℕ) → down_held mode i < 16 },
    ghost row_kept: { length (row_of mode) ≡ 16 },
}
