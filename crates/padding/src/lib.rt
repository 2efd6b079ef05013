// Padding of the owed matrix: units are added until every line sum is the busiest line.
#![tactic(auto)]

ghost use Rattle.std.specs.Prelude.{◌≡◌, ℕ, ◌+◌, ◌-◌, ◌^◌, ◌<◌, ◌≤◌, min};
ghost use Rattle.lines.specs.Matrix.{cells, load, downlink_sum, busiest, Inside};
ghost use Rattle.owed.specs.Calls.{lines_of, units_of};
ghost use Rattle.padding.specs.Padding.{listed, RowVisited, Padding};

use lines::{Downlink, Line, Lines, Uplink};
use owed::Owed;
use std::array;

// What a line lacks to b, and nothing for a line that there is not.
fn lack(owed: &Owed, line: Line, b: u32) -> u32
    ensures { Inside (lines_of owed.now) line → result ≡ b - load (lines_of owed.now) line (units_of owed.now) }
{
    owed.line_sum(line).map_or(0, |sum| b.saturating_sub(sum))
}

// What each downlink lacks to b.
fn down_lacks(owed: &Owed, b: u32) -> [u32; 16]
    ensures { (j : ℕ) → j < lines_of owed.now → listed result j ≡ b - downlink_sum (lines_of owed.now) (units_of owed.now) j }
{
    array::from_fn(|j| lack(owed, Line::Down(Downlink(j as u16)), b))
}

// Adds to a crosspoint the smaller of what its two lines lack, and answers it.
fn visit(left: u32, units: &mut u32, lack: &mut u32) -> u32
    requires { units.old + left < 2 ^ 32 }
    ensures adds { result ≡ min left lack.old }
    ensures units { units.new ≡ units.old + result }
    ensures lack { lack.new ≡ lack.old - result }
{
    let add = left.min(*lack);
    *units += add;
    *lack -= add;
    add
}

// Visits the crosspoints of an uplink that lacks so many units.
fn pad_row(lines: Lines, lack: u32, row: &mut [u32; 16], lacks: &mut [u32; 16])
    requires { (k : ℕ) → k < lines.count → listed row.old k + lack < 2 ^ 32 }
    ensures { RowVisited lines.count lack (listed row.old) (listed row.new) (listed lacks.old) (listed lacks.new) }
{
    let mut left = lack;
    // by places, since nothing is known of what was written through a zip of two iter_mut
    for j in 0..lines.count() {
        left -= visit(left, &mut row[j], &mut lacks[j]);
    }
}

// Visits the crosspoints uplink by uplink.
fn pad_to(owed: &Owed, b: u32) -> [[u32; 16]; 16]
    requires { b ≡ busiest (lines_of owed.now) (units_of owed.now) }
    ensures { Padding (lines_of owed.now) (units_of owed.now) (cells result) }
{
    let lines = owed.line_count();
    let mut lacks = down_lacks(owed, b);
    let mut rows = owed.rows();
    for (i, row) in rows[..lines.count()].iter_mut().enumerate() {
        let up = lack(owed, Line::Up(Uplink(i as u16)), b);
        pad_row(lines, up, row, &mut lacks);
    }
    rows
}

// The padded matrix: the crosspoints are visited by rising uplink, then rising downlink, and at each the smaller of what its two lines still lack to the busiest line is added.
pub fn pad(owed: &Owed) -> [[u32; 16]; 16]
    ensures { Padding (lines_of owed.now) (units_of owed.now) (cells result) }
{
    pad_to(owed, owed.busiest())
}
