// How many lines there are.
ghost use Rattle.std.specs.Prelude.{◌≡◌, ◌≤◌, MatchOption, ◌⊎◌, ◌<◌};

// A number of uplinks and as many downlinks: 1 to 16.
#[derive(Clone, Copy, PartialEq, Eq, Debug)]
pub struct Lines {
    count: usize,
    ghost some: { 1 ≤ count },
    ghost few: { count ≤ 16 },
}

impl Lines {
    // None where there would be no line, or more than 16.
    pub fn new(count: usize) -> Option<Lines>
        ensures { MatchOption result ((count ≡ 0) ⊎ (16 < count)) (λ lines. lines.count ≡ count) }
    {
        if count == 0 || count > 16 {
            return None;
        }
        Some(Lines { count })
    }

    pub fn count(self) -> usize
        ensures { result ≡ self.count }
    {
        self.count
    }
}
