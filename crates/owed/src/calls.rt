// The calls on the owed matrix.
ghost use Rattle.std.specs.Prelude.{◌≡◌, ℕ, ◌+◌, ◌-◌, ◌<◌, ◌≤◌, IfOk, Some, None, cond, nat_lt, MatchResult};
ghost use Rattle.lines.specs.Matrix.{cells, load, busiest as most, Inside, Wrote};
ghost use Rattle.lines.specs.Verdicts.{answered, told, or_same};
ghost use Rattle.owed.specs.Limits.{limit};
ghost use Rattle.owed.specs.Calls.{lines_of, units_of, make_decline, line_decline, room_decline, add_decline, take_decline, sum_decline, added, taken, WithinLimits};

use super::decline::OwedDecline;
use super::matrix::{LIMIT, Owed};
use super::sums::{column_sum, no_units, put, row_sum};
use lines::{Crosspoint, Downlink, Line, Lines, Uplink};

impl Owed {
    // A matrix with nothing owed.
    pub fn new(lines: usize) -> Result<Owed, OwedDecline>
        ensures { MatchResult result (λ o. (make_decline lines ≡ None) × (lines_of o ≡ lines) × ((a b : ℕ) → units_of o a b ≡ 0)) (λ e. make_decline lines ≡ Some e) }
    {
        let lines = Lines::new(lines).ok_or(OwedDecline::Lines)?;
        Ok(Owed {
            lines,
            rows: no_units(),
        })
    }

    // The number of uplinks, and of downlinks.
    pub fn lines(&self) -> usize
        ensures { result ≡ lines_of self.now }
    {
        self.lines.count()
    }

    // The same number, as one that is known to be 1 to 16; callers read the plain one too.
    pub fn line_count(&self) -> Lines
        ensures { result.count ≡ lines_of self.now }
    {
        self.lines
    }

    // The units by uplink and downlink.
    pub fn rows(&self) -> [[u32; 16]; 16]
        ensures { cells result ≡ units_of self.now }
    {
        self.rows
    }

    // The sum of a line that there is.
    fn load(&self, line: Line) -> u32
        requires { Inside (lines_of self.now) line }
        ensures sum { result ≡ load (lines_of self.now) line (units_of self.now) }
        ensures small { result ≤ limit }
    {
        match line {
            Line::Up(up) => row_sum(&self.rows[usize::from(up.0)]),
            Line::Down(down) => column_sum(&self.rows, usize::from(down.0)),
        }
    }

    // Declines a line that there is not; as a crossbar does, with a decline of its own.
    fn check_line(&self, line: Line) -> Result<(), OwedDecline>
        ensures { result ≡ answered (sum_decline (lines_of self.now) line) }
    {
        let number = match line {
            Line::Up(up) => up.0,
            Line::Down(down) => down.0,
        };
        if usize::from(number) >= self.lines.count() {
            return Err(OwedDecline::LineAbove(line));
        }
        Ok(())
    }

    // Declines more units than a line has room for.
    fn check_room(&self, line: Line, units: u32) -> Result<(), OwedDecline>
        requires { Inside (lines_of self.now) line }
        ensures { result ≡ answered (room_decline (lines_of self.now) (units_of self.now) line units) }
    {
        if units > LIMIT - self.load(line) {
            return Err(OwedDecline::LineFull(line));
        }
        Ok(())
    }

    // What a crosspoint is owed with so many units more.
    fn more(&self, up: Uplink, down: Downlink, units: u32) -> Result<u32, OwedDecline>
        ensures value { result ≡ told (add_decline (lines_of self.now) (units_of self.now) up down units) (units_of self.now up.0 down.0 + units) }
        ensures room { IfOk result (WithinLimits (lines_of self.now) (units_of self.now) up.0 down.0) }
    {
        let owed = self.units(up, down)?;
        if units == 0 {
            return Err(OwedDecline::NoUnits);
        }
        self.check_room(Line::Up(up), units)?;
        self.check_room(Line::Down(down), units)?;
        Ok(owed + units)
    }

    // What a crosspoint is owed with so many units fewer. It begins as the one above: two tests, for which a function would need a definition more.
    fn fewer(&self, up: Uplink, down: Downlink, units: u32) -> Result<u32, OwedDecline>
        ensures value { result ≡ told (take_decline (lines_of self.now) (units_of self.now) up down units) (units_of self.now up.0 down.0 - units) }
        ensures room { IfOk result (WithinLimits (lines_of self.now) (units_of self.now) up.0 down.0) }
    {
        let owed = self.units(up, down)?;
        if units == 0 {
            return Err(OwedDecline::NoUnits);
        }
        owed.checked_sub(units)
            .ok_or(OwedDecline::TooMuch(Crosspoint { up, down }))
    }

    // Writes what a crosspoint is owed.
    fn write(&mut self, up: Uplink, down: Downlink, units: u32)
        requires { WithinLimits (lines_of self.old) (units_of self.old) up.0 down.0 units }
        ensures lines { lines_of self.new ≡ lines_of self.old }
        ensures units { Wrote (units_of self.old) (units_of self.new) up.0 down.0 units }
    {
        let (i, j) = (usize::from(up.0), usize::from(down.0));
        put(&mut self.rows[i], j, units);
    }

    // So many more units at a crosspoint.
    pub fn add(&mut self, up: Uplink, down: Downlink, units: u32) -> Result<(), OwedDecline>
        ensures answer { result ≡ answered (add_decline (lines_of self.old) (units_of self.old) up down units) }
        ensures lines { lines_of self.new ≡ lines_of self.old }
        ensures units { (a b : ℕ) → units_of self.new a b ≡ or_same (add_decline (lines_of self.old) (units_of self.old) up down units) (added (units_of self.old) up.0 down.0 units) (units_of self.old) a b }
    {
        let sum = self.more(up, down, units)?;
        self.write(up, down, sum);
        Ok(())
    }

    // So many units fewer at a crosspoint.
    pub fn take(&mut self, up: Uplink, down: Downlink, units: u32) -> Result<(), OwedDecline>
        ensures answer { result ≡ answered (take_decline (lines_of self.old) (units_of self.old) up down units) }
        ensures lines { lines_of self.new ≡ lines_of self.old }
        ensures units { (a b : ℕ) → units_of self.new a b ≡ or_same (take_decline (lines_of self.old) (units_of self.old) up down units) (taken (units_of self.old) up.0 down.0 units) (units_of self.old) a b }
    {
        let rest = self.fewer(up, down, units)?;
        self.write(up, down, rest);
        Ok(())
    }

    // The units owed at a crosspoint.
    pub fn units(&self, up: Uplink, down: Downlink) -> Result<u32, OwedDecline>
        ensures { result ≡ told (line_decline (lines_of self.now) up down) (units_of self.now up.0 down.0) }
    {
        self.check_line(Line::Up(up))?;
        self.check_line(Line::Down(down))?;
        Ok(self.rows[usize::from(up.0)][usize::from(down.0)])
    }

    // The sum of a line.
    pub fn line_sum(&self, line: Line) -> Result<u32, OwedDecline>
        ensures { result ≡ told (sum_decline (lines_of self.now) line) (load (lines_of self.now) line (units_of self.now)) }
    {
        self.check_line(line)?;
        Ok(self.load(line))
    }

    // The largest line sum.
    pub fn busiest(&self) -> u32
        ensures { result ≡ most (lines_of self.now) (units_of self.now) }
    {
        // the number of lines fits, since it is at most 16
        (0..self.lines.count() as u16)
            .map(|k| {
                let up = self.load(Line::Up(Uplink(k)));
                up.max(self.load(Line::Down(Downlink(k))))
            })
            .max()
            .unwrap_or(0)
    }
}
