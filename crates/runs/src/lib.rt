// What is told of a run: why it stopped, and which units fell short.
#![tactic(auto)]

ghost use Rattle.std.specs.Prelude.{◌≡◌, Some};
ghost use Rattle.runs.specs.Causes.{stop_word};

use lines::{Downlink, Uplink};
use std::fmt;

// Why a run of several modes stopped.
#[derive(Clone, Copy, PartialEq, Eq, Debug)]
pub enum Cause {
    End,
    Short,
    Stop,
    Budget,
}

impl Cause {
    pub fn word(self) -> &'static str
        ensures { result.now ≡ stop_word self }
    {
        match self {
            Cause::End => "end",
            Cause::Short => "short",
            Cause::Stop => "stop",
            Cause::Budget => "budget",
        }
    }
}

impl fmt::Display for Cause {
    ghost output = { λ cause. Some (stop_word cause) };

    fn fmt<W: fmt::Write>(&self, f: &mut fmt::Formatter<W>) -> fmt::Result {
        f.write_str(self.word())
    }
}

// The lowest uplink that fell short with its downlink and missing units, and the missing units of all uplinks.
#[derive(Clone, Copy, PartialEq, Eq, Debug)]
pub struct Shortfall {
    pub up: Uplink,
    pub down: Downlink,
    pub missing: u16,
    pub total: u32,
}
