// The search for an augmenting path.
ghost use Rattle.std.specs.Prelude.{◌≡◌, ℕ, ◌<◌, true, false, MatchOption};
ghost use Rattle.lines.specs.Sets.{In};
ghost use Rattle.augmenting.specs.Holders.{Picked, Known, Apart, Idle, Tried, Searched, Seated};

use lines::{Uplink, lowest_line, with_line, without};

// The lowest downlink of the row that has not been tried; from now on it has been.
fn pick(row: u16, tried: &mut u16) -> Option<usize>
    ensures { MatchOption result (((k : ℕ) → In row k → In tried.old k) × (tried.new ≡ tried.old)) (λ d. Picked row tried.old tried.new d) }
{
    let down = lowest_line(without(row, *tried))?;
    *tried = with_line(*tried, down);
    Some(down)
}

// Gives the uplink the first downlink of its row, rising, that has not been tried and is free, or whose holder gets another one by the same search.
// The uplink is a number here: the search was measured to be slower with an Uplink.
fn seat(rows: &[u16; 16], up: usize, tried: &mut u16, holders: &mut [Option<Uplink>; 16]) -> bool
    requires line { up < 16 }
    requires known { Known holders.old }
    requires apart { Apart holders.old }
    requires own { Tried holders.old up tried.old }
    ensures known { Known holders.new }
    ensures seated { result ≡ true → Seated rows.now holders.old holders.new up tried.old tried.new }
    ensures failed { result ≡ false → Searched rows.now holders.old up tried.old tried.new × (holders.new ≡ holders.old) }
{
    while let Some(down) = pick(rows[up], tried) {
        let free = match holders[down] {
            Some(holder) => seat(rows, usize::from(holder.0), tried, holders),
            None => true,
        };
        if free {
            holders[down] = Some(Uplink(up as u16));
            return true;
        }
    }
    false
}

// The same for an uplink that holds nothing yet. Apart, since the search for a holder that has to move starts while it still holds a downlink.
pub(crate) fn seat_idle(
    rows: &[u16; 16],
    up: usize,
    tried: &mut u16,
    holders: &mut [Option<Uplink>; 16],
) -> bool
    requires line { up < 16 }
    requires known { Known holders.old }
    requires apart { Apart holders.old }
    requires idle { Idle holders.old up }
    ensures known { Known holders.new }
    ensures apart { Apart holders.new }
    ensures seated { result ≡ true → Seated rows.now holders.old holders.new up tried.old tried.new }
    ensures failed { result ≡ false → Searched rows.now holders.old up tried.old tried.new × (holders.new ≡ holders.old) }
{
    seat(rows, up, tried, holders)
}
