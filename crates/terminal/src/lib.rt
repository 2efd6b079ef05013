// A script that comes in byte by byte.
#![tactic(auto)]

ghost use Rattle.std.specs.Prelude.{◌≡◌, ℕ, true, false, List, [], ◌∷◌, ◌++◌, ◌≢◌};
ghost use Rattle.line_input.specs.Kept.{is_empty};
ghost use Rattle.line_input.specs.Lines.{Holds};
ghost use Rattle.replies.specs.declared.Reply.{Reply};
ghost use Rattle.terminal.specs.Scripts.{lines_of, Answered, told};
ghost use Rattle.terminal.specs.Input.{Closed, Grown, Took, Ended, Heard};

use desk::Desk;
use line_input::LineBuffer;
use replies::Reply;
use std::alloc::Global;

const LINE_FEED: u8 = b'\n';

// A script that is read: its line so far, and what its earlier lines led to.
#[derive(Drop)]
pub struct Terminal {
    input: LineBuffer,
    desk: Desk,
}

impl Terminal {
    // The beginning of a script.
    #[tactic(auto, using(crate::proofs::Histories::begun))]
    pub fn new(heap: Global) -> Terminal
        ensures { Heard [] [] result }
    {
        Terminal {
            input: LineBuffer::new(),
            desk: Desk::new(heap),
        }
    }

    // The answer to the line so far.
    fn answer(&mut self) -> Reply
        ensures { (line : List ℕ) → Holds self.old.input line → Closed self.old line result self.new }
    {
        let reply = self.desk.answer_line(self.input.line());
        self.input.clear();
        reply
    }

    // One byte more, with the answer to the line that it ends.
    #[tactic(auto, using(crate::proofs::Histories::line_ended, crate::proofs::Histories::line_grown))]
    pub fn take(&mut self, byte: u8) -> Option<Reply>
        ensures step { (line : List ℕ) → Holds self.old.input line → Took self.old line byte result self.new }
        ensures heard { (script : List ℕ) (rs : List Reply) → Heard script rs self.old → Heard (script ++ byte ∷ []) (told rs result) self.new }
    {
        if byte == LINE_FEED {
            return Some(self.answer());
        }
        self.input.push(byte);
        None
    }

    // The end of the input, with the answer to a last line without a line feed.
    pub fn end(&mut self) -> Option<Reply>
        ensures step { (line : List ℕ) → Holds self.old.input line → Ended self.old line result self.new }
        ensures heard { (script : List ℕ) (rs : List Reply) → Heard script rs self.old → Answered (lines_of script) (told rs result) self.new.desk }
    {
        if self.input.is_empty() {
            return None;
        }
        Some(self.answer())
    }
}
