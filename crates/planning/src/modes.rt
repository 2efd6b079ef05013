// The modes of a plan, one matching after the other.
ghost use Rattle.std.specs.Prelude.{◌≡◌, ℕ, ◌-◌, ◌<◌, ◌≤◌, min, if◌then◌else◌, None, nat_eq, nat_lt, slice_index, slice_index_or};
ghost use Rattle.lines.specs.Matrix.{cells, Blank};
ghost use Rattle.matching.specs.Answers.{unused, mate_of};
ghost use Rattle.owed.specs.Calls.{lines_of, units_of};
ghost use Rattle.schedule.specs.Modes.{units_to};
ghost use Rattle.planning.specs.Supports.{in_bits, support_rows};
ghost use Rattle.planning.specs.Making.{dwell_of, grant_for, grant_row, minus, matched, Usable};
ghost use Rattle.planning.specs.Rests.{Whole, Given, Step};

use super::rest::Rest;
use lines::{Downlink, Lines};
use matching::{Engine, EngineAnswer};
use owed::Owed;
use padding::pad;
use schedule::{Join, Mode};

// The places of a row that are above zero, as bits. A fixed number of places is faster to read, and nothing stands past the lines.
fn support_row(row: &[u32; 16]) -> u16
    ensures { result ≡ in_bits 16 (λ j. nat_lt 0 (slice_index row.now j)) }
{
    let mut bits: u16 = 0;
    for (j, number) in row.iter().enumerate() {
        if *number > 0 {
            bits += 1 << j;
        }
    }
    bits
}

// The crosspoints above zero, as rows of bits.
fn support_of(lines: Lines, p: &[[u32; 16]; 16]) -> [u16; 16]
    requires { Blank lines.count (cells p.now) }
    ensures { result ≡ support_rows lines.count (cells p.now) }
{
    // a loop, and not from_fn, which takes longer here
    let mut rows = [0; 16];
    for (i, row) in p[..lines.count()].iter().enumerate() {
        rows[i] = support_row(row);
    }
    rows
}

// The downlink that uplink i is matched with.
fn mate(mates: &[Downlink; 16], i: usize) -> Downlink
    requires { i < 16 }
    ensures { result ≡ slice_index_or mates.now i unused }
{
    mates[i]
}

// Takes units off an uplink's row, at a downlink.
fn take_at(row: &mut [u32; 16], down: Downlink, units: u32)
    requires size { down.0 < 16 }
    requires enough { units ≤ slice_index row.old down.0 }
    ensures { (k : ℕ) → slice_index row.new k ≡ slice_index row.old k - (if nat_eq down.0 k then units else 0) }
{
    row[usize::from(down.0)] -= units;
}

// The dwell leaves each matched number. The mates are read by the uplink's number, since it is not known what rows hold after a `zip` with `iter_mut`.
fn take_off(lines: Lines, p: &mut [[u32; 16]; 16], mates: &[Downlink; 16], dwell: u16)
    requires inside { (i : ℕ) → i < lines.count → mate_of mates.now i < lines.count }
    requires enough { (i : ℕ) → i < lines.count → dwell ≤ cells p.old i (mate_of mates.now i) }
    requires blank { Blank lines.count (cells p.old) }
    ensures { cells p.new ≡ minus (cells p.old) (matched mates.now dwell) }
{
    for (i, row) in p[..lines.count()].iter_mut().enumerate() {
        take_at(row, mate(mates, i), u32::from(dwell));
    }
}

// What an uplink is granted at a downlink, out of its row of units not yet planned, which it leaves.
fn grant(row: &mut [u32; 16], down: Downlink, dwell: u16) -> Option<Join>
    requires { down.0 < 16 }
    ensures grant { result ≡ grant_for down (min dwell (slice_index row.old down.0)) }
    ensures left { (k : ℕ) → slice_index row.new k ≡ slice_index row.old k - units_to k result }
{
    let granted = row[usize::from(down.0)].min(u32::from(dwell));
    if granted == 0 {
        return None;
    }
    take_at(row, down, granted);
    Some(Join {
        down,
        // it fits, since it is at most the dwell
        units: granted as u16,
    })
}

// The grants of a mode, uplink by uplink. The mates are read by number, as where the dwell leaves.
fn grant_all(
    lines: Lines,
    q: &mut [[u32; 16]; 16],
    mates: &[Downlink; 16],
    dwell: u16,
) -> [Option<Join>; 16]
    requires { (i : ℕ) → i < lines.count → mate_of mates.now i < lines.count }
    ensures row { result ≡ grant_row lines.count dwell (cells q.old) mates.now }
    ensures left { cells q.new ≡ minus (cells q.old) (λ i j. units_to j (slice_index_or result i None)) }
{
    let mut grants = [None; 16];
    for (i, row) in q[..lines.count()].iter_mut().enumerate() {
        grants[i] = grant(row, mate(mates, i), dwell);
    }
    grants
}

impl Rest {
    // All that is owed.
    pub(super) fn new(owed: &Owed) -> Rest
        ensures { Whole (lines_of owed.now) (units_of owed.now) result }
    {
        Rest {
            lines: owed.line_count(),
            left: owed.busiest(),
            padded: pad(owed),
            unplanned: owed.rows(),
        }
    }

    // A matching that the engine gives for the support. Where all lines have one sum, no witness can be given.
    fn ask<E: Engine>(&self, engine: &E) -> [Downlink; 16]
        requires { 0 < self.now.left }
        ensures { Given E.Engine.may self.now result }
    {
        match engine.find(self.lines.count(), support_of(self.lines, &self.padded)) {
            Ok(EngineAnswer::Matching(mates)) => mates,
            Ok(EngineAnswer::Witness(_)) => unreachable(),
            Err(_) => unreachable(),
        }
    }

    // The dwell of the matching's mode: the smallest number on it. The mates are read by number, through the function that says what stands beyond a matching.
    fn dwell_for(&self, mates: &[Downlink; 16]) -> u16
        requires { Usable self.now.lines.count (cells self.now.padded) mates.now }
        ensures { result ≡ dwell_of self.now.lines.count (cells self.now.padded) mates.now }
    {
        let mut least = u32::from(u16::MAX);
        for (i, row) in self.padded[..self.lines.count()].iter().enumerate() {
            least = least.min(row[usize::from(mate(mates, i).0)]);
        }
        // it fits, since it is at most what it began with
        least as u16
    }

    // The mode of a matching that the engine gives for what is left.
    pub(super) fn next_mode<E: Engine>(&mut self, engine: &E) -> Mode
        requires { 0 < self.old.left }
        ensures { Step E.Engine.may self.old self.new result }
    {
        let mates = self.ask(engine);
        let dwell = self.dwell_for(&mates);
        take_off(self.lines, &mut self.padded, &mates, dwell);
        let row = grant_all(self.lines, &mut self.unplanned, &mates, dwell);
        self.left -= u32::from(dwell);
        Mode { dwell, row }
    }
}
