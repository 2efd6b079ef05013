// Plan files read back into modes.
ghost use Rattle.std.specs.Prelude.{◌≡◌, MatchOption, MatchResult};
ghost use Rattle.records.specs.Files.{count, Whole, modes_in};
ghost use Rattle.records.specs.Layout.{mode_of};
ghost use Rattle.records.specs.Reader.{bytes_of};
ghost use Rattle.plan_files.specs.Reading.{lines_said, Fits, AllFit, Tells, Untold};

use super::decline::ReadDecline;
use lines::Lines;
use records::{Record, read_record, read_records, record_count};
use schedule::Mode;
use std::alloc::Global;

// What a plan file says: a number of lines, 0 if it has no record, and its modes. A number in that case too, since callers read it as one.
#[derive(Drop)]
pub struct PlanFile {
    pub lines: usize,
    pub modes: Vec<Mode>,
}

// The number of lines that the first record says.
fn first_lines(file: &[u8]) -> usize
    requires { Whole file.now }
    ensures { result ≡ lines_said file.now }
{
    read_record(file, 0).map_or(0, |record| record.lines())
}

// The mode that a record says, if it fits so many lines.
fn fitting_mode(source: &Record<'_>, lines: usize) -> Option<Mode>
    ensures { MatchOption result (Fits lines (bytes_of source.now) → ⊥) (λ m. Fits lines (bytes_of source.now) × (m ≡ mode_of (bytes_of source.now))) }
{
    let lines = Lines::new(lines)?;
    source.checked_mode(lines.count())
}

// The modes of all records.
fn read_all(heap: Global, lines: usize, file: &[u8]) -> Result<Vec<Mode>, ReadDecline>
    requires whole { Whole file.now }
    requires lines { lines ≡ lines_said file.now }
    ensures { MatchResult result (λ v. AllFit (lines_said file.now) (count file.now) file.now × (v.items ≡ modes_in file.now)) (Untold file.now) }
{
    let mut modes = Vec::new(heap);
    for record in read_records(file) {
        let mode = fitting_mode(&record, lines).ok_or(ReadDecline::Improper(record.place()))?;
        modes.push(mode).map_err(|_| ReadDecline::NoMemory)?;
    }
    Ok(modes)
}

// Reads the modes of a plan file.
pub fn read_modes(heap: Global, file: &[u8]) -> Result<PlanFile, ReadDecline>
    ensures { MatchResult result (Tells file.now) (Untold file.now) }
{
    record_count(file).ok_or(ReadDecline::Size)?;
    let lines = first_lines(file);
    let modes = read_all(heap, lines, file)?;
    Ok(PlanFile { lines, modes })
}
