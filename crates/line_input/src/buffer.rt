// What is kept of a line.
ghost use Rattle.std.specs.Prelude.{◌≡◌, ◌≤◌, length};
ghost use Rattle.line_input.specs.Kept.{most};

// The most bytes that are kept of a line: one more than a readable line has.
pub(super) const KEPT: usize = 81;

// A line of which some bytes have come. It keeps the first of them.
// The contracts speak of the whole line, of which only the front is kept, so it has no Model.
// An array and a count: a line is Copy and takes no memory of its own, and the kit's ArrayVec is not Copy.
#[derive(Clone, Copy)]
pub struct LineBuffer {
    pub(super) bytes: [u8; KEPT],
    pub(super) len: usize,
    ghost few: { len ≤ most },
    ghost whole: { length bytes ≡ most },
}
