// A script from standard input, answered line by line.
#![tactic(auto)]

ghost use Rattle.std.specs.Prelude.{IfOk, OnOk};
ghost use Rattle.serving.specs.Input.{Hears, HearsOn, HasAnswered};

use replies::Reply;
use std::io;
use std::io::Read;
use terminal::Terminal;

fn print_reply(rt: &HostRuntime, reply: &Reply) -> io::Result<()> {
    let line = reply.line(rt.alloc())?;
    println!(rt; "{line}")
}

// Answers the lines that end in some bytes. All of the bytes are heard, in their order.
pub fn answer_bytes(rt: &HostRuntime, bytes: &[u8], terminal: &mut Terminal) -> io::Result<()>
    ensures { OnOk result (HearsOn terminal.old bytes.now terminal.new) }
{
    for byte in bytes {
        if let Some(reply) = terminal.take(*byte) {
            print_reply(rt, &reply)?;
        }
    }
    Ok(())
}

// Answers the lines that end in the input, part by part until it ends.
fn answer_parts(rt: &HostRuntime, terminal: &mut Terminal) -> io::Result<()>
    ensures { OnOk result (Hears terminal.old → Hears terminal.new) }
{
    let mut input = rt.stdin();
    let mut buffer = [0u8; 4096];
    // Every loop has to end, and nothing says that the input does.
    for _ in 0..u64::MAX {
        let count = input.read(&mut buffer)?;
        if count == 0 {
            return Ok(());
        }
        answer_bytes(rt, &buffer[..count], terminal)?;
    }
    Ok(())
}

// Answers each line of standard input as it comes: what some script has led to at its end. No contract can say what standard input holds.
pub fn answer_input(rt: &HostRuntime) -> io::Result<Terminal>
    ensures { IfOk result HasAnswered }
{
    let mut terminal = Terminal::new(rt.alloc());
    answer_parts(rt, &mut terminal)?;
    if let Some(reply) = terminal.end() {
        print_reply(rt, &reply)?;
    }
    Ok(terminal)
}
