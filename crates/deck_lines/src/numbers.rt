//! Numbers in decimal digits.
ghost use Rattle.std.specs.Prelude.{◌≡◌};
ghost use Rattle.deck_lines.specs.Words.{number_of};

/// The number that a word spells: 1 to 18 decimal digits.
pub fn number(word: &[u8]) -> Option<u64>
    ensures { result ≡ number_of word.now }
{
    if word.is_empty() || word.len() > 18 {
        return None;
    }
    let mut n: u64 = 0;
    for digit in word {
        if *digit < b'0' || *digit > b'9' {
            return None;
        }
        n = 10 * n + u64::from(*digit - b'0');
    }
    Some(n)
}
