// A number, and no type of its own: the rows and the witness of an engine are such numbers in public calls.
// Sets of lines, held as the bits of a number: line j is in the set where the bit of value 2^j is 1.
ghost use Rattle.std.specs.Prelude.{◌≡◌, ℕ, ◌<◌, ◌≤◌, true, false, not, ◌&&◌, ◌||◌, MatchOption, ◌≢◌, nat_lt};
ghost use Rattle.lines.specs.Sets.{has, In, size};

fn bit_of(set: u16, line: usize) -> bool
    requires { line < 16 }
    ensures { result ≡ has set line }
{
    set >> line & 1 == 1
}

// Whether the line is in the set; from 16 up none is.
pub fn has_line(set: u16, line: usize) -> bool
    ensures { result ≡ has set line }
{
    line < 16 && bit_of(set, line)
}

fn with_bit(set: u16, line: usize) -> u16
    requires { line < 16 }
    ensures added { In result line }
    ensures others { (k : ℕ) → (line ≢ k) → has result k ≡ has set k }
{
    set | 1 << line
}

// The set with the line added; a line from 16 up changes nothing.
pub fn with_line(set: u16, line: usize) -> u16
    ensures added { line < 16 → In result line }
    ensures others { (k : ℕ) → (line ≢ k) → has result k ≡ has set k }
    ensures beyond { 16 ≤ line → result ≡ set }
{
    if line < 16 { with_bit(set, line) } else { set }
}

// The lines of either set.
#[tactic(auto, using(crate::proofs::Bits::has_or))]
pub fn united(a: u16, b: u16) -> u16
    ensures { (k : ℕ) → has result k ≡ (has a k || has b k) }
{
    a | b
}

// The lines of the set that are not among those taken away.
#[tactic(auto, using(crate::proofs::Bits::without_16))]
pub fn without(set: u16, away: u16) -> u16
    ensures { (k : ℕ) → has result k ≡ (has set k && not (has away k)) }
{
    set & !away
}

fn low_bits(n: usize) -> u16
    requires { n ≤ 16 }
    ensures { (k : ℕ) → has result k ≡ nat_lt k n }
{
    // it fits, since n is at most 16
    ((1u32 << n) - 1) as u16
}

// The lines below n, of sixteen.
pub fn lines_below(n: usize) -> u16
    ensures { (k : ℕ) → has result k ≡ (nat_lt k n && nat_lt k 16) }
{
    low_bits(n.min(16))
}

fn lowest_bit(set: u16) -> usize
    requires { 0 < set }
    ensures { (result < 16) × In set result × ((k : ℕ) → k < result → has set k ≡ false) }
{
    // every u32 is a usize here, which the library has no From for
    set.trailing_zeros() as usize
}

// The lowest line of the set.
pub fn lowest_line(set: u16) -> Option<usize>
    ensures { MatchOption result ((k : ℕ) → has set k ≡ false) (λ j. (j < 16) × In set j × ((k : ℕ) → k < j → has set k ≡ false)) }
{
    if set == 0 {
        return None;
    }
    Some(lowest_bit(set))
}

// Whether the set has no line.
pub fn is_empty(set: u16) -> bool
    ensures none { result ≡ true → (k : ℕ) → has set k ≡ false }
    ensures some { result ≡ false → ((k : ℕ) × (k < 16) × In set k) }
{
    lowest_line(set).is_none()
}

// How many lines are in the set.
#[tactic(auto, using(crate::proofs::Bits::size_16))]
pub fn set_size(set: u16) -> u32
    ensures { result ≡ size 16 set }
{
    set.count_ones()
}
