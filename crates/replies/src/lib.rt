// The answer lines of a console.
#![tactic(auto)]

ghost use Rattle.std.specs.Prelude.{◌≡◌, IfOk, Some, string_bytes};
ghost use Rattle.replies.specs.Replies.{line_of};

use lines::{Downlink, Uplink};
pub use runs::{Cause, Shortfall};
use std::alloc::{AllocError, Global};
use std::fmt;

// What is answered to a script line.
#[derive(Clone, Copy, PartialEq, Eq, Debug)]
pub enum Reply {
    Ok,
    Planned {
        modes: usize,
        length: u32,
        letter: char,
    },
    // the fields of a session's step, as a line prints them
    Mode {
        number: usize,
        dwell: u16,
        short: Option<Shortfall>,
    },
    Ran {
        count: u16,
        cause: Cause,
    },
    Owed(u32),
    // the number that is printed, whoever declined
    No(u16),
}

impl fmt::Display for Reply {
    ghost output = { λ r. Some (line_of r) };

    fn fmt<W: fmt::Write>(&self, f: &mut fmt::Formatter<W>) -> fmt::Result {
        match *self {
            Reply::Ok => write!(f, "ok"),
            Reply::Planned {
                modes,
                length,
                letter,
            } => write!(f, "plan {modes} {length} {letter}"),
            Reply::Mode {
                number,
                dwell,
                short: None,
            } => write!(f, "mode {number} {dwell}"),
            Reply::Mode {
                number,
                dwell,
                short: Some(
                    Shortfall {
                        up: Uplink(up),
                        down: Downlink(down),
                        missing,
                        total,
                    },
                ),
            } => write!(
                f,
                "mode {number} {dwell} short {up} {down} {missing} {total}"
            ),
            Reply::Ran { count, cause } => write!(f, "ran {count} {cause}"),
            Reply::Owed(units) => write!(f, "owed {units}"),
            Reply::No(number) => write!(f, "no {number}"),
        }
    }
}

impl Reply {
    // The line that is printed, without its line feed.
    pub fn line(&self, heap: Global) -> Result<String, AllocError>
        ensures { IfOk result (λ s. string_bytes s ≡ line_of self.now) }
    {
        format!(in heap; "{self}")
    }
}
