//! The words with which statements begin.
ghost use Rattle.std.specs.Prelude.{◌≡◌, find};
ghost use Rattle.std.specs.Str.{bytes_eq};
ghost use Rattle.deck_lines.specs.Statements.{head_word_of, spelling_of};

/// A head word, without its index numbers.
#[derive(Clone, Copy, Debug, PartialEq, Eq)]
pub enum HeadWord {
    Years,
    Periods,
    Rate,
    Ens,
    Rule,
    Cases,
    Conditions,
    Shape,
    Fuel,
    Load,
    Plant,
    Add,
    Retire,
    Thermal,
    Hydro,
    Project,
    Water,
    Tunnel,
    Margin,
    Lolp,
    Version,
    EnsMore,
    Escalate,
    Grid,
}

/// In the order of the table of statements.
const HEAD_WORDS: [HeadWord; 24] = [
    HeadWord::Years,
    HeadWord::Periods,
    HeadWord::Rate,
    HeadWord::Ens,
    HeadWord::Rule,
    HeadWord::Cases,
    HeadWord::Conditions,
    HeadWord::Shape,
    HeadWord::Fuel,
    HeadWord::Load,
    HeadWord::Plant,
    HeadWord::Add,
    HeadWord::Retire,
    HeadWord::Thermal,
    HeadWord::Hydro,
    HeadWord::Project,
    HeadWord::Water,
    HeadWord::Tunnel,
    HeadWord::Margin,
    HeadWord::Lolp,
    HeadWord::Version,
    HeadWord::EnsMore,
    HeadWord::Escalate,
    HeadWord::Grid,
];

impl HeadWord {
    /// How the word is written.
    pub(crate) fn spelling(self) -> &'static [u8]
        ensures { result.now ≡ spelling_of self }
    {
        match self {
            HeadWord::Years => b"YEARS",
            HeadWord::Periods => b"PERIODS",
            HeadWord::Rate => b"RATE",
            HeadWord::Ens => b"ENS",
            HeadWord::Rule => b"RULE",
            HeadWord::Cases => b"CASES",
            HeadWord::Conditions => b"CONDITIONS",
            HeadWord::Shape => b"SHAPE",
            HeadWord::Fuel => b"FUEL",
            HeadWord::Load => b"LOAD",
            HeadWord::Plant => b"PLANT",
            HeadWord::Add => b"ADD",
            HeadWord::Retire => b"RETIRE",
            HeadWord::Thermal => b"THERMAL",
            HeadWord::Hydro => b"HYDRO",
            HeadWord::Project => b"PROJECT",
            HeadWord::Water => b"WATER",
            HeadWord::Tunnel => b"TUNNEL",
            HeadWord::Margin => b"MARGIN",
            HeadWord::Lolp => b"LOLP",
            HeadWord::Version => b"VERSION",
            HeadWord::EnsMore => b"ENSMORE",
            HeadWord::Escalate => b"ESCALATE",
            HeadWord::Grid => b"GRID",
        }
    }

    /// The head word that a text spells, in capital letters exactly.
    pub(crate) fn from_text(text: &[u8]) -> Option<HeadWord>
        ensures { result ≡ head_word_of text.now }
    {
        find_word(&HEAD_WORDS, text)
    }
}

fn find_word(words: &[HeadWord], text: &[u8]) -> Option<HeadWord>
    ensures { result ≡ find (λ word. bytes_eq text.now (spelling_of word)) words.now }
{
    for word in words {
        if text == word.spelling() {
            return Some(*word);
        }
    }
    None
}
