// Words read as numbers.
ghost use Rattle.std.specs.Prelude.{◌≡◌, ◌<◌, ◌≤◌, true, false, length, MatchOption};
ghost use Rattle.script.specs.Numerals.{all_digits, read_on, number_of};

const MOST_DIGITS: usize = 5;

// The number that a short word writes in decimal, if it has digits only.
fn decimal(word: &[u8]) -> Option<u32>
    requires { length word.now ≤ 5 }
    ensures { MatchOption result (all_digits word.now ≡ false) (λ n. (all_digits word.now ≡ true) × (n ≡ read_on 0 word.now)) }
{
    // A loop and no fold: that n fits rests on how many digits came before.
    let mut n: u32 = 0;
    for b in word {
        n = 10 * n + char::from(*b).to_digit(10)?;
    }
    Some(n)
}

// The number that a word writes: 1 to 5 digits, at most 65,535.
pub fn number(word: &[u8]) -> Option<u16>
    ensures { result ≡ number_of word.now }
{
    if word.is_empty() || word.len() > MOST_DIGITS {
        return None;
    }
    u16::try_from(decimal(word)?).ok()
}
