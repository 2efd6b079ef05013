// Commands whose words are read as numbers.
ghost use Rattle.std.specs.Prelude.{◌≡◌};
ghost use Rattle.script.specs.Commands.{pieces};
ghost use Rattle.script.specs.Requests.{asked, request_of, Meant};

use super::commands::{Command, Words, parse};
use super::numbers::number;
use lines::{Downlink, Uplink};

// What a script line asks for.
pub type Request = Command<Uplink, Downlink, u16>;

impl Words<'_> {
    // The request of a command whose words are all numbers.
    pub fn request(&self) -> Option<Request>
        ensures { result ≡ asked (pieces self.now) }
    {
        Some(match *self {
            Command::Lines(lines) => Command::Lines(number(lines)?),
            Command::Fault {
                up,
                down,
                most,
                from,
            } => Command::Fault {
                up: Uplink(number(up)?),
                down: Downlink(number(down)?),
                most: number(most)?,
                from: number(from)?,
            },
            Command::Post { up, down, units } => Command::Post {
                up: Uplink(number(up)?),
                down: Downlink(number(down)?),
                units: number(units)?,
            },
            Command::Withdraw { up, down, units } => Command::Withdraw {
                up: Uplink(number(up)?),
                down: Downlink(number(down)?),
                units: number(units)?,
            },
            Command::Plan => Command::Plan,
            Command::Step => Command::Step,
            Command::Run(modes) => Command::Run(number(modes)?),
            Command::Drop => Command::Drop,
            Command::Owed { up, down } => Command::Owed {
                up: Uplink(number(up)?),
                down: Downlink(number(down)?),
            },
        })
    }
}

// The request that a line makes, or none where it is unreadable.
#[tactic(auto, using(crate::proofs::Grammar::meant))]
pub fn read_line(line: &[u8]) -> Option<Request>
    ensures value { result ≡ request_of line.now }
    ensures meant { Meant line.now result }
{
    parse(line)?.request()
}
