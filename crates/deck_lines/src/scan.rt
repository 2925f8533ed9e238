//! The words of a line, from left to right.
ghost use Rattle.std.specs.Prelude.{◌≡◌, ◌<◌, ◌≤◌, ◌+◌, ◌-◌, ℕ, List, [], ◌∷◌, length, take, drop, slice_index, IfNone, MatchOption, MatchBool, true, false};
ghost use Rattle.deck_lines.specs.Words as spec;
ghost use Rattle.deck_lines.specs.Words.{Piece, piece_of, words_from, IsWord};

use std::marker::Model;

/// A word, and the place of its first byte in the line, from 1.
#[derive(Clone, Copy, Debug)]
pub struct Word<'a> {
    pub column: usize,
    pub text: &'a [u8],
}

fn is_space(byte: u8) -> bool
    ensures { result ≡ spec.is_space byte }
{
    byte == b' ' || byte == b'\t'
}

/// The place of the first byte from here on that is no space.
fn skip(line: &[u8], at: usize) -> usize
    requires { at ≤ length line.now }
    ensures within { result ≤ length line.now }
    ensures same { words_from (result + 1) (drop result line.now) ≡ words_from (at + 1) (drop at line.now) }
    ensures stops { result < length line.now → spec.is_space (slice_index line.now result) ≡ false }
{
    let mut i = at;
    while i < line.len() && is_space(line[i]) {
        i += 1;
    }
    i
}

/// The place behind the word that begins here.
fn end_of_word(line: &[u8], start: usize) -> usize
    requires within { start < length line.now }
    requires begins { spec.is_space (slice_index line.now start) ≡ false }
    ensures within { result ≤ length line.now }
    ensures longer { start < result }
    ensures word { IsWord (take (result - start) (drop start line.now)) }
    ensures stops { result < length line.now → spec.is_space (slice_index line.now result) ≡ true }
{
    let mut i = start;
    while i < line.len() && !is_space(line[i]) {
        i += 1;
    }
    i
}

/// The words of a line that weren't read yet.
#[derive(Drop)]
pub struct Words<'a> {
    line: &'a [u8],
    at: usize,
}

impl<'a> Model for Words<'a> {
    ghost Value = { List Piece };

    ghost view = { λ w. words_from (w.at + 1) (drop w.at w.line.now) };

    ghost invariant = { λ w. w.at ≤ length w.line.now };
}

impl<'a> Words<'a> {
    pub fn new(line: &'a [u8]) -> Self
        ensures { result ≡ spec.words_of line.now }
    {
        Words { line, at: 0 }
    }

    /// Whether no word is left.
    pub fn is_empty(&self) -> bool
        ensures { MatchBool result (self.now ≡ []) ((w : Piece) × (ws : List Piece) × (self.now ≡ w ∷ ws)) }
    {
        skip(self.line, self.at) == self.line.len()
    }

    /// Reads the next word.
    pub fn next(&mut self) -> Option<Word<'a>>
        ensures { MatchOption result ((self.old ≡ []) × (self.new ≡ [])) (λ w. self.old ≡ piece_of w ∷ self.new) }
    {
        let start = skip(self.line, self.at);
        self.at = start;
        if start == self.line.len() {
            return None;
        }
        let end = end_of_word(self.line, start);
        self.at = end;
        Some(Word {
            column: start + 1,
            text: &self.line[start..end],
        })
    }
}
