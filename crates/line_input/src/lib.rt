// A line of the input, kept in bounded memory.
#![tactic(auto)]

ghost use Rattle.std.specs.Prelude.{◌≡◌, ℕ, List, [], ◌∷◌, ◌++◌, take};
ghost use Rattle.line_input.specs.Kept.{most, is_empty};
ghost use Rattle.line_input.specs.Lines.{Holds};
ghost use Rattle.script.specs.Requests.{request_of};

mod buffer;

use buffer::KEPT;
pub use buffer::LineBuffer;

impl LineBuffer {
    // A line of which nothing has come.
    pub fn new() -> LineBuffer
        ensures { Holds result [] }
    {
        LineBuffer {
            bytes: [0; KEPT],
            len: 0,
        }
    }

    // One byte more of the line.
    #[tactic(auto, using(crate::proofs::Fronts::full, crate::proofs::Fronts::grown))]
    pub fn push(&mut self, byte: u8)
        ensures { (line : List ℕ) → Holds self.old line → Holds self.new (line ++ byte ∷ []) }
    {
        if self.len < KEPT {
            self.bytes[self.len] = byte;
            self.len += 1;
        }
    }

    // The first 81 bytes of the line, or all.
    #[tactic(auto, using(crate::proofs::Fronts::front_asks))]
    pub fn line(&self) -> &[u8]
        ensures kept { (line : List ℕ) → Holds self.now line → result.now ≡ take most line }
        ensures same { (line : List ℕ) → Holds self.now line → request_of result.now ≡ request_of line }
    {
        &self.bytes[..self.len]
    }

    // Whether nothing has come of the line.
    #[tactic(auto, using(crate::proofs::Fronts::none_kept))]
    pub fn is_empty(&self) -> bool
        ensures { (line : List ℕ) → Holds self.now line → result ≡ is_empty line }
    {
        self.len == 0
    }

    // The next line begins.
    pub fn clear(&mut self)
        ensures { Holds self.new [] }
    {
        self.len = 0;
    }
}
