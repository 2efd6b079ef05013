// The verdict on a file.
ghost use Rattle.std.specs.Prelude.{◌≡◌, ℕ, ◌<◌, ◌≢◌, is_ok, Decides, MatchOption, slice_index};
ghost use Rattle.lines.specs.Matrix.{cells, Same};
ghost use Rattle.owed.specs.Calls.{lines_of, units_of};
ghost use Rattle.records.specs.Files.{count, Schedules};
ghost use Rattle.checker.specs.Check.{FirstDiffers, Sized, Tallied, Served, Missed, Verdict, Sole};

use super::decline::CheckDecline;
use super::tally::{Tally, add_up};
use lines::{Crosspoint, Downlink, Lines, Uplink};
use owed::Owed;
use records::record_count;

// How many records a file may have.
const MOST_RECORDS: usize = 65535;

// What is told of a schedule: its length, and whether that is the busiest line.
#[derive(Clone, Copy, PartialEq, Eq, Debug)]
pub struct Checked {
    pub length: u32,
    // a finding, and no mark that the length holds
    pub shortest: bool,
}

// The first of so many downlinks at which two rows differ; by place, since the place is the answer.
fn first_in_row(lines: Lines, ours: &[u32; 16], theirs: &[u32; 16]) -> Option<usize>
    ensures { MatchOption result ((j : ℕ) → j < lines.count → slice_index ours.now j ≡ slice_index theirs.now j) (λ j. (j < lines.count) × (slice_index ours.now j ≢ slice_index theirs.now j) × ((k : ℕ) → k < j → slice_index ours.now k ≡ slice_index theirs.now k)) }
{
    (0..lines.count()).find(|j| ours[*j] != theirs[*j])
}

// The first crosspoint at which the totals are not what is owed.
fn first_difference(owed: &Owed, totals: &[[u32; 16]; 16]) -> Option<Crosspoint>
    ensures { MatchOption result (Same (lines_of owed.now) (cells totals.now) (units_of owed.now)) (FirstDiffers (lines_of owed.now) (cells totals.now) (units_of owed.now)) }
{
    let lines = owed.line_count();
    let rows = owed.rows();
    (0..lines.count()).find_map(|i| {
        let j = first_in_row(lines, &totals[i], &rows[i])?;
        Some(Crosspoint {
            up: Uplink(i as u16),
            down: Downlink(j as u16),
        })
    })
}

// The first crosspoint at which a file of modes with this tally grants other units than are owed. That the file is whole records is a fact of a lent slice: one call would make a struct for it, and two would read it.
fn first_missed(owed: &Owed, file: &[u8], tally: &Tally) -> Option<Crosspoint>
    requires sized { Sized file.now }
    requires tallied { Tallied (lines_of owed.now) file.now (count file.now) tally.now.length (cells tally.now.totals) }
    ensures { MatchOption result (Served (lines_of owed.now) (units_of owed.now) file.now tally.now.length) (Missed (lines_of owed.now) (units_of owed.now) file.now) }
{
    first_difference(owed, &tally.totals)
}

// The verdict on such a file.
fn judge(owed: &Owed, file: &[u8], tally: &Tally) -> Result<Checked, CheckDecline>
    requires sized { Sized file.now }
    requires tallied { Tallied (lines_of owed.now) file.now (count file.now) tally.now.length (cells tally.now.totals) }
    ensures { Verdict (lines_of owed.now) (units_of owed.now) file.now result }
{
    match first_missed(owed, file, tally) {
        Some(crosspoint) => Err(CheckDecline::Differs(crosspoint)),
        None => Ok(Checked {
            length: tally.length,
            shortest: tally.length == owed.busiest(),
        }),
    }
}

// Checks that a file is a schedule that serves exactly what is owed.
pub fn check(owed: &Owed, file: &[u8]) -> Result<Checked, CheckDecline>
    ensures told { Verdict (lines_of owed.now) (units_of owed.now) file.now result }
    ensures sole { Sole (lines_of owed.now) (units_of owed.now) file.now result }
    ensures exact { Decides (is_ok result) (Schedules (lines_of owed.now) (units_of owed.now) file.now) }
{
    record_count(file)
        .filter(|records| *records <= MOST_RECORDS)
        .ok_or(CheckDecline::Size)?;
    let tally = add_up(owed.line_count(), file)?;
    judge(owed, file, &tally)
}
