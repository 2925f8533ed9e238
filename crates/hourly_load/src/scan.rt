//! The words of a line and the numbers that they spell, where no more than two words are looked at.
ghost use Rattle.std.specs.Prelude.{◌≡◌, ◌<◌, ◌≤◌, ◌+◌, ◌-◌, [], ◌∷◌, length, take, drop, slice_index, MatchOption, true, false};
ghost use Rattle.deck_lines.specs.Words as spec;
ghost use Rattle.deck_lines.specs.Words.{number_of, words_from, IsWord};

/// The places of a word in a line: of its first byte, and behind its last.
#[derive(Clone, Copy, Debug)]
pub(crate) struct Span {
    pub start: usize,
    pub end: usize,
}

fn is_space(byte: u8) -> bool
    ensures { result ≡ spec.is_space byte }
{
    byte == b' ' || byte == b'\t'
}

/// The place of the first byte from here on that is no space.
fn skip(line: &[u8], at: usize) -> usize
    requires { at ≤ length line.now }
    ensures within { result ≤ length line.now }
    ensures same { words_from (result + 1) (drop result line.now) ≡ words_from (at + 1) (drop at line.now) }
    ensures stops { result < length line.now → spec.is_space (slice_index line.now result) ≡ false }
{
    let mut i = at;
    while i < line.len() && is_space(line[i]) {
        i += 1;
    }
    i
}

/// The place behind the word that begins here.
fn end_of_word(line: &[u8], start: usize) -> usize
    requires within { start < length line.now }
    requires begins { spec.is_space (slice_index line.now start) ≡ false }
    ensures within { result ≤ length line.now }
    ensures longer { start < result }
    ensures word { IsWord (take (result - start) (drop start line.now)) }
    ensures stops { result < length line.now → spec.is_space (slice_index line.now result) ≡ true }
{
    let mut i = start;
    while i < line.len() && !is_space(line[i]) {
        i += 1;
    }
    i
}

/// The first word from here on.
pub(crate) fn next_word(line: &[u8], at: usize) -> Option<Span>
    requires { at ≤ length line.now }
    ensures { MatchOption result (words_from (at + 1) (drop at line.now) ≡ []) (λ w. (w.start < w.end) × (w.end ≤ length line.now) × (words_from (at + 1) (drop at line.now) ≡ record { column = w.start + 1; text = take (w.end - w.start) (drop w.start line.now) } ∷ words_from (w.end + 1) (drop w.end line.now))) }
{
    let start = skip(line, at);
    if start == line.len() {
        return None;
    }
    let end = end_of_word(line, start);
    Some(Span { start, end })
}

/// The number that a word spells: 1 to 18 decimal digits.
pub fn number(word: &[u8]) -> Option<u64>
    ensures { result ≡ number_of word.now }
{
    if word.is_empty() || word.len() > 18 {
        return None;
    }
    let mut n: u64 = 0;
    for digit in word {
        if *digit < b'0' || *digit > b'9' {
            return None;
        }
        n = 10 * n + u64::from(*digit - b'0');
    }
    Some(n)
}
