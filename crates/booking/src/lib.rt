// What a batch of reservations adds to the owed units, what a run mode takes off them, and what it lacks.
#![tactic(auto)]

ghost use Rattle.std.specs.Prelude.{◌≡◌, ℕ, ◌-◌, Some, MatchResult, map, sum, length, position, ◌≤◌};
ghost use Rattle.lines.specs.Matrix.{plus};
ghost use Rattle.lines.specs.Verdicts.{answered, or_same};
ghost use Rattle.owed.specs.Calls.{lines_of, units_of, taken};
ghost use Rattle.records.specs.Reservations.{reservations};
ghost use Rattle.law.specs.Refusals.{batch_decline};
ghost use Rattle.law.specs.Runs.{carried_by, missing, shortfall};
ghost use Rattle.law.specs.Calls.{reserved};
ghost use Rattle.booking.specs.Bookings.{Posted, posts_decline, falls_short};

use law::{SessionDecline, Shortfall};
use lines::{Downlink, Uplink};
use owed::Owed;
use records::{read_reservations, reservation_count};
use switch::Outcome;

// The owed units with all reservations posted, each in turn.
fn post_all(owed: Owed, bytes: &[u8]) -> Result<Owed, SessionDecline>
    ensures { MatchResult result (Posted owed bytes.now) (λ e. posts_decline owed bytes.now ≡ Some e) }
{
    let mut next = owed;
    for (number, x) in read_reservations(bytes) {
        next.add(x.up, x.down, u32::from(x.units))
            .map_err(|decline| SessionDecline::Record {
                number,
                station: x.station,
                decline,
            })?;
    }
    Ok(next)
}

// Posts reservations, all of them or none.
pub fn post_batch(owed: &mut Owed, bytes: &[u8]) -> Result<(), SessionDecline>
    ensures answer { result ≡ answered (batch_decline (lines_of owed.old) (units_of owed.old) bytes.now) }
    ensures lines { lines_of owed.new ≡ lines_of owed.old }
    ensures units { (a b : ℕ) → units_of owed.new a b ≡ or_same (batch_decline (lines_of owed.old) (units_of owed.old) bytes.now) (plus (units_of owed.old) (reserved (reservations bytes.now))) (units_of owed.old) a b }
{
    reservation_count(bytes).ok_or(SessionDecline::PartRecord)?;
    *owed = post_all(*owed, bytes)?;
    Ok(())
}

// Takes units off a crosspoint, as far as they are owed there.
fn strike(owed: &mut Owed, up: Uplink, down: Downlink, units: u32)
    ensures lines { lines_of owed.new ≡ lines_of owed.old }
    ensures units { (a b : ℕ) → units_of owed.new a b ≡ taken (units_of owed.old) up.0 down.0 units a b }
{
    if let Ok(there) = owed.units(up, down) {
        let _ = owed.take(up, down, units.min(there));
    }
}

// Takes what a run mode carried off the owed units, as far as they are owed.
pub fn settle(owed: &mut Owed, outcomes: &[Option<Outcome>; 16])
    ensures lines { lines_of owed.new ≡ lines_of owed.old }
    ensures units { (a b : ℕ) → units_of owed.new a b ≡ units_of owed.old a b - carried_by outcomes.now a b }
{
    for (i, outcome) in outcomes.iter().enumerate() {
        if let Some(outcome) = outcome {
            strike(
                owed,
                Uplink(i as u16),
                outcome.join.down,
                u32::from(outcome.carried),
            );
        }
    }
}

// The units that an uplink was granted and did not carry.
fn missing_of(outcome: Option<Outcome>) -> u16
    ensures { result ≡ missing outcome }
{
    outcome.map_or(0, |o| o.join.units.saturating_sub(o.carried))
}

// The lowest uplink that fell short.
fn first_short(outcomes: &[Option<Outcome>; 16]) -> Option<usize>
    ensures { result ≡ position falls_short outcomes.now }
{
    outcomes.iter().position(|o| missing_of(*o) > 0)
}

// The units that all uplinks were granted and did not carry.
fn total_missing(outcomes: &[Option<Outcome>]) -> u32
    requires { length outcomes.now ≤ 16 }
    ensures { result ≡ sum (map missing outcomes.now) }
{
    outcomes.iter().map(|o| u32::from(missing_of(*o))).sum()
}

// What a run mode lacks: the lowest uplink that fell short, and all missing units.
pub fn fell_short(outcomes: &[Option<Outcome>; 16]) -> Option<Shortfall>
    ensures { result ≡ shortfall outcomes.now }
{
    let first = first_short(outcomes)?;
    let outcome = outcomes[first]?;
    Some(Shortfall {
        up: Uplink(first as u16),
        down: outcome.join.down,
        missing: missing_of(Some(outcome)),
        total: total_missing(outcomes),
    })
}
