// Script lines taken apart into commands.
ghost use Rattle.std.specs.Prelude.{◌≡◌, true, false, MatchOption};
ghost use Rattle.script.specs.Words.{split, more};
ghost use Rattle.script.specs.Commands.{pieces, shaped, readable, Takes};

use super::words::{Pieces, only_letter};

// The most bytes that a line may have.
const LONGEST: usize = 80;

// A command of a script, with what stands for its uplinks, its downlinks and its other numbers.
#[derive(Clone, Copy)]
pub enum Command<U, D, N> {
    Lines(N),
    Fault { up: U, down: D, most: N, from: N },
    Post { up: U, down: D, units: N },
    Withdraw { up: U, down: D, units: N },
    Plan,
    Step,
    Run(N),
    Drop,
    Owed { up: U, down: D },
}

// A command as it is written: the words are parts of the script line.
pub type Words<'a> = Command<&'a [u8], &'a [u8], &'a [u8]>;

// The command of a letter, with its words taken off what follows the letter.
fn by_letter<'a>(letter: char, words: &mut Pieces<'a>) -> Option<Words<'a>>
    ensures { Takes letter (more words.old.0) result (more words.new.0) }
{
    // a match and no table of functions: each letter takes its own words
    match letter {
        'n' => Some(Command::Lines(words.next()?)),
        'f' => Some(Command::Fault {
            up: words.next()?,
            down: words.next()?,
            most: words.next()?,
            from: words.next()?,
        }),
        'p' => Some(Command::Post {
            up: words.next()?,
            down: words.next()?,
            units: words.next()?,
        }),
        'w' => Some(Command::Withdraw {
            up: words.next()?,
            down: words.next()?,
            units: words.next()?,
        }),
        'm' => Some(Command::Plan),
        's' => Some(Command::Step),
        'r' => Some(Command::Run(words.next()?)),
        'd' => Some(Command::Drop),
        'o' => Some(Command::Owed {
            up: words.next()?,
            down: words.next()?,
        }),
        _ => None,
    }
}

// The command that a line holds, or none where it holds none.
pub fn parse(line: &[u8]) -> Option<Words<'_>>
    ensures { MatchOption result (readable line.now ≡ false) (λ c. (readable line.now ≡ true) × (pieces c ≡ split line.now)) }
{
    if line.len() > LONGEST {
        return None;
    }
    let mut pieces = Pieces::of(line);
    let letter = only_letter(pieces.next()?)?;
    let command = by_letter(letter, &mut pieces)?;
    pieces.next().is_none().then_some(command)
}
