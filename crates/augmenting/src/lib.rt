// Partial matchings, and the search for an augmenting path, which both engines share.
#![tactic(auto)]

ghost use Rattle.std.specs.Prelude.{◌≡◌, ℕ, ◌&&◌, nat_lt};
ghost use Rattle.lines.specs.Sets.{has};
ghost use Rattle.augmenting.specs.Holders.{Within};

mod pairing;
mod search;

use lines::lines_below;
pub use pairing::Pairing;

// The row of an uplink without the downlinks from n up; an uplink from n up has none.
fn cut_row(n: usize, up: usize, row: u16) -> u16
    ensures { (j : ℕ) → has result j ≡ (has row j && (nat_lt up n && nat_lt j n)) }
{
    if up < n { row & lines_below(n) } else { 0 }
}

// The rows without the lines from n up.
pub fn within(n: usize, mut rows: [u16; 16]) -> [u16; 16]
    ensures { Within n rows result }
{
    for (up, row) in rows.iter_mut().enumerate() {
        *row = cut_row(n, up, *row);
    }
    rows
}
