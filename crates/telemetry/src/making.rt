// Making a telemetry switch.
ghost use Rattle.std.specs.Prelude.{◌≡◌};
ghost use Rattle.lines.specs.Verdicts.{answered, or_same};
ghost use Rattle.crossbar.specs.Made.{fresh};
ghost use Rattle.crossbar.specs.Shown.{shown};
ghost use Rattle.telemetry.specs.Made.{make_decline, unread};

use super::decline::TelemetryDecline;
use super::report::Report;
use crossbar::{Crossbar, lines_outside};
use records::{RECORD_SIZE, record_count};

// A switch whose runs carry what a file reports.
pub type Telemetry<'a> = Crossbar<Report<'a>>;

// Whether these lines and this file make a telemetry switch. A simulator has no file to test, so the two checks stay apart.
pub fn check(lines: usize, file: &[u8]) -> Result<(), TelemetryDecline>
    ensures { result ≡ answered (make_decline lines file.now) }
{
    if lines_outside(lines) {
        return Err(TelemetryDecline::LinesOutside);
    }
    if record_count(file).is_none() {
        return Err(TelemetryDecline::PartRecord);
    }
    Ok(())
}

// How many records of a file a switch reads.
pub(super) fn count_records(file: &[u8]) -> u16
    ensures { result ≡ unread file.now }
{
    u16::try_from(file.len() / RECORD_SIZE).unwrap_or(u16::MAX)
}

// What check declines gives a switch of one line without room.
pub fn make(lines: usize, file: &[u8]) -> Telemetry<'_>
    ensures meaning { shown result.fabric ≡ or_same (make_decline lines file.now) (fresh lines (unread file.now)) (fresh 1 0) }
    ensures file { result.carrier.file.now ≡ file.now }
{
    let (lines, room) = match check(lines, file) {
        Ok(()) => (lines, count_records(file)),
        Err(_) => (1, 0),
    };
    Crossbar::new(lines, room, Report { file })
}
