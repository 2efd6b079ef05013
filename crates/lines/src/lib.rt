// Lines and crosspoints, as every layer names them.
#![tactic(auto)]

mod decline;
mod number;
mod sets;

pub use decline::Decline;
pub use number::Lines;
pub use sets::{
    has_line, is_empty, lines_below, lowest_line, set_size, united, with_line, without,
};

// The number of an uplink beam. It is as wide as a number of a script, so that a number that is too large reaches the call that declines it.
// The place of an array becomes a line's number by `as`: it is below 16, which a From could not ask for, and a TryFrom would answer a failure that can't come.
#[derive(Clone, Copy, PartialEq, Eq, Debug)]
pub struct Uplink(pub u16);

// The number of a downlink beam.
#[derive(Clone, Copy, PartialEq, Eq, Debug)]
pub struct Downlink(pub u16);

#[derive(Clone, Copy, PartialEq, Eq, Debug)]
pub enum Line {
    Up(Uplink),
    Down(Downlink),
}

// What is told of a crosspoint. Calls take its uplink and its downlink apart, as their callers have them; the two types can't be swapped.
#[derive(Clone, Copy, PartialEq, Eq, Debug)]
pub struct Crosspoint {
    pub up: Uplink,
    pub down: Downlink,
}

// What a decline points at: a line, a crosspoint, a record of a file, or nothing.
#[derive(Clone, Copy, PartialEq, Eq, Debug)]
pub enum Place {
    Nowhere,
    OnLine(Line),
    AtCrosspoint(Crosspoint),
    AtRecord(usize),
}
