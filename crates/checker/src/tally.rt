// What the modes of a file add up to.
ghost use Rattle.std.specs.Prelude.{◌≡◌, ℕ, ◌+◌, ◌<◌, ◌≤◌, Some, MatchResult, slice_index};
ghost use Rattle.lines.specs.Matrix.{cells};
ghost use Rattle.schedule.specs.declared.Join.{Join};
ghost use Rattle.schedule.specs.Modes.{units_to, granted, Sound};
ghost use Rattle.records.specs.Files.{count, FirstImproper};
ghost use Rattle.checker.specs.Check.{Sized, Tallied};

use super::decline::CheckDecline;
use lines::Lines;
use records::read_records;
use schedule::{Join as Grant, Mode};

// The length of a schedule and the units that it grants. A schedule of 65,535 modes is shorter than 2 to the 32.
#[derive(Clone, Copy)]
pub struct Tally {
    pub length: u32,
    pub totals: [[u32; 16]; 16],
}

// Adds a grant to its uplink's row.
fn add_grant(row: &mut [u32; 16], grant: Option<Grant>)
    requires inside { (x : Join) → grant ≡ Some x → x.down.0 < 16 }
    requires small { (y : ℕ) → y < 16 → slice_index row.old y + units_to y grant ≤ 4294967295 }
    ensures { (y : ℕ) → slice_index row.new y ≡ slice_index row.old y + units_to y grant }
{
    if let Some(join) = grant {
        row[usize::from(join.down.0)] += u32::from(join.units);
    }
}

// Adds the grants of a mode to the totals.
fn add_mode(lines: Lines, mode: &Mode, totals: &mut [[u32; 16]; 16])
    requires sound { Sound lines.count mode.now }
    requires small { (x y : ℕ) → x < lines.count → y < 16 → cells totals.old x y + mode.now.dwell ≤ 4294967295 }
    ensures { (x y : ℕ) → x < lines.count → cells totals.new x y ≡ cells totals.old x y + granted mode.now x y }
{
    // The rows are reached by places, and not by `iter_mut` and `zip`, after which it is not known what they hold.
    for (i, grant) in mode.row[0..lines.count()].iter().enumerate() {
        add_grant(&mut totals[i], *grant);
    }
}

// The tally of all records, unless one is no mode of so many lines.
pub(super) fn add_up(lines: Lines, file: &[u8]) -> Result<Tally, CheckDecline>
    requires sized { Sized file.now }
    ensures { MatchResult result (λ t. Tallied lines.count file.now (count file.now) t.length (cells t.totals)) (λ e. (k : ℕ) × (e ≡ CheckDecline.Improper k) × FirstImproper lines.count file.now k) }
{
    let mut totals = [[0u32; 16]; 16];
    let mut length: u32 = 0;
    for record in read_records(file) {
        let mode = record
            .checked_mode(lines.count())
            .ok_or(CheckDecline::Improper(record.place()))?;
        add_mode(lines, &mode, &mut totals);
        length += u32::from(mode.dwell);
    }
    Ok(Tally { length, totals })
}
