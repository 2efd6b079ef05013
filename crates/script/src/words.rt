// The pieces of a line between its spaces.
ghost use Rattle.std.specs.Prelude.{◌≡◌, [], ◌∷◌, length, MatchOption, ◌≢◌};
ghost use Rattle.std.specs.Iterator.{YieldsFirstRef, item_count};
ghost use Rattle.script.specs.Words.{split, more};

// The pieces of what is left of a line: none after its last one.
#[derive(Drop)]
pub(super) struct Pieces<'a>(Option<&'a [u8]>);

impl<'a> Pieces<'a> {
    pub(super) fn of(line: &'a [u8]) -> Pieces<'a>
        ensures { more result.0 ≡ split line.entry.now }
    {
        Pieces(Some(line))
    }
}

impl<'a> Iterator for Pieces<'a> {
    type Item = &'a [u8];

    ghost next_gives = { YieldsFirstRef (λ p. more p.0) };

    ghost remaining = { item_count (λ p. more p.0) };

    fn next(&mut self) -> Option<&'a [u8]> {
        let (piece, rest) = split_piece(self.0?);
        self.0 = rest;
        Some(piece)
    }
}

// The piece of `s` before its first space, and what follows that space.
fn split_piece(s: &[u8]) -> (&[u8], Option<&[u8]>)
    ensures { split s.now ≡ result.0.now ∷ more result.1 }
{
    match s.iter().position(|b| *b == b' ') {
        Some(i) => (&s[..i], Some(&s[i + 1..])),
        None => (s, None),
    }
}

// The character that is all of `head`.
pub(super) fn only_letter(head: &[u8]) -> Option<char>
    ensures { MatchOption result (length head.now ≢ 1) (λ c. head.now ≡ c ∷ []) }
{
    match *head {
        [letter] => Some(char::from(letter)),
        _ => None,
    }
}
