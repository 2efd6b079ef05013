// Reads a script from standard input and answers each line as it comes.
#![tactic(auto)]

use serving::answer_input;
use std::io;

fn main(rt: HostRuntime) -> io::Result<()> {
    let _ = answer_input(&rt)?;
    Ok(())
}
