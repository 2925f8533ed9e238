//! The words with which the other lines begin.
ghost use Rattle.std.specs.Prelude.{◌≡◌, find};
ghost use Rattle.std.specs.Str.{bytes_eq};
ghost use Rattle.deck_lines.specs.Grammar.{line_words, line_word_of, line_spelling_of};

use crate::line::Mode;

/// The first word of a line that is no statement.
#[derive(Clone, Copy, Debug, PartialEq, Eq)]
pub enum LineWord {
    Drop,
    Plan,
    Check,
    End,
    Come,
    Chosen,
    Total,
    Infeasible,
    EndCheck,
    Case,
    Edge,
    Terms,
    Risk,
    Short,
    Gen,
}

/// The words of a certificate: the last six begin lines that are skipped.
const CERTIFICATE_WORDS: [LineWord; 11] = [
    LineWord::Come,
    LineWord::Chosen,
    LineWord::Total,
    LineWord::Infeasible,
    LineWord::EndCheck,
    LineWord::Case,
    LineWord::Edge,
    LineWord::Terms,
    LineWord::Risk,
    LineWord::Short,
    LineWord::Gen,
];

impl LineWord {
    /// How the word is written.
    pub(crate) fn spelling(self) -> &'static [u8]
        ensures { result.now ≡ line_spelling_of self }
    {
        match self {
            LineWord::Drop => b"DROP",
            LineWord::Plan => b"PLAN",
            LineWord::Check => b"CHECK",
            LineWord::End => b"END",
            LineWord::Come => b"COME",
            LineWord::Chosen => b"CHOSEN",
            LineWord::Total => b"TOTAL",
            LineWord::Infeasible => b"INFEASIBLE",
            LineWord::EndCheck => b"ENDCHECK",
            LineWord::Case => b"CASE",
            LineWord::Edge => b"EDGE",
            LineWord::Terms => b"TERMS",
            LineWord::Risk => b"RISK",
            LineWord::Short => b"SHORT",
            LineWord::Gen => b"GEN",
        }
    }

    /// The word that a text spells, where the mode allows it.
    pub(crate) fn from_text(mode: Mode, text: &[u8]) -> Option<LineWord>
        ensures { result ≡ line_word_of mode text.now }
    {
        match mode {
            Mode::Plan => find_word(&[LineWord::Drop, LineWord::Plan, LineWord::End], text),
            Mode::Check => find_word(&[LineWord::Drop, LineWord::Check, LineWord::End], text),
            Mode::Certificate => find_word(&CERTIFICATE_WORDS, text),
        }
    }
}

fn find_word(words: &[LineWord], text: &[u8]) -> Option<LineWord>
    ensures { result ≡ find (λ word. bytes_eq text.now (line_spelling_of word)) words.now }
{
    for word in words {
        if text == word.spelling() {
            return Some(*word);
        }
    }
    None
}
