// What a run carries.
ghost use Rattle.std.specs.Prelude.{◌≡◌, ℕ, ◌+◌, ◌^◌, ◌<◌, [], length, None, slice_index_or};
ghost use Rattle.lines.specs.Matrix.{cells};
ghost use Rattle.switch.specs.Calls.{CarriesAt, carried_to};
ghost use Rattle.crossbar.specs.Carries.{outcome_by, outcomes_by};
ghost use Rattle.crossbar.specs.Kept.{down_out};

use super::carrier::{Carrier, Start};
use lines::Uplink;
use schedule::Join;
use std::array;
use switch::Outcome;

// The outcome of an uplink's entry, as the carrier says.
fn outcome<C: Carrier>(carrier: &C, start: Start, i: usize, entry: Option<Join>) -> Option<Outcome>
    requires { i < 16 }
    ensures carry { CarriesAt entry result }
    ensures exact { result ≡ outcome_by (C.carries carrier.now start.clock start.room) i entry }
{
    entry.map(|join| Outcome {
        join,
        carried: carrier.carry(start, Uplink(i as u16), join.down, join.units),
    })
}

// The outcome of each grant, as the carrier says.
pub(super) fn outcomes<C: Carrier>(
    carrier: &C,
    start: Start,
    row: &[Option<Join>; 16],
) -> [Option<Outcome>; 16]
    ensures carry { (i : ℕ) → CarriesAt (slice_index_or row.now i None) (slice_index_or result i None) }
    ensures all { result ≡ outcomes_by (C.carries carrier.now start.clock start.room) row.now }
{
    array::from_fn(|i| outcome(carrier, start, i, row[i]))
}

// Adds the outcomes to what was carried.
pub(super) fn add_outcomes(carried: &mut [[u64; 16]; 16], all: &[Option<Outcome>; 16])
    requires small { (i j : ℕ) → cells carried.old i j < 2 ^ 63 }
    requires downs { (i : ℕ) → down_out (slice_index_or all.now i None) < 16 }
    requires rows { (i : ℕ) → i < 16 → length (slice_index_or carried.old i []) ≡ 16 }
    ensures each { (i j : ℕ) → cells carried.new i j ≡ cells carried.old i j + carried_to j (slice_index_or all.now i None) }
    ensures rows { (i : ℕ) → i < 16 → length (slice_index_or carried.new i []) ≡ 16 }
{
    // A zip of the rows would read better, but nothing is known of rows that are written through one.
    for (i, outcome) in all.iter().enumerate() {
        if let Some(o) = outcome {
            carried[i][usize::from(o.join.down.0)] += u64::from(o.carried);
        }
    }
}
