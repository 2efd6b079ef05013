// The lines of a script: commands whose words are parts of the line, and the requests that their numbers make.
#![tactic(auto)]

mod commands;
mod numbers;
mod requests;
mod words;

pub use commands::{Command, Words, parse};
pub use requests::{Request, read_line};
