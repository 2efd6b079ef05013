// What a grant carries by the record of its mode.
ghost use Rattle.std.specs.Prelude.{◌≡◌};
ghost use Rattle.records.specs.Reader.{bytes_of};
ghost use Rattle.telemetry.specs.Reports.{entry_of, by_entry, reports};

use super::making::count_records;
use super::report::Report;
use crossbar::{Carrier, Start};
use lines::{Downlink, Uplink};
use records::{Record, read_record};

// What the entry of an uplink lets a grant carry.
fn reported(taken: &Record<'_>, up: Uplink, down: Downlink, units: u16) -> u16
    ensures { result ≡ by_entry (entry_of (bytes_of taken.now) up.0) down.0 units }
{
    match taken.entry(up) {
        Some(entry) if entry.down == down => units.min(entry.units),
        _ => 0,
    }
}

impl<'a> Carrier for Report<'a> {
    ghost carries = { λ s t r i j u. reports s.file.now r i j u };

    fn carry(&self, start: Start, up: Uplink, down: Downlink, units: u16) -> u16 {
        let records = count_records(self.file);
        if start.room >= records {
            return 0;
        }
        read_record(self.file, usize::from(records - start.room - 1)).map_or(
            0,
            |taken| reported(&taken, up, down, units),
        )
    }
}
