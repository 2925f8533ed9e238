//! What plants, candidates and groups are called.
ghost use Rattle.std.specs.Prelude.{◌≡◌, ◌≤◌, IsTrue, length, take, drop};
ghost use Rattle.deck_lines.specs.Statements.{is_name};
ghost use Rattle.checked_deck.specs.TypedDeck.{head_of_id};

use deck_lines::Head;
use std::marker::Model;

/// A plant, a thermal candidate or a hydro group, by its number.
#[derive(Clone, Copy, Debug, PartialEq, Eq)]
pub enum PlantId {
    /// An existing plant, 1 to 40.
    Existing(u64),
    /// A thermal candidate, 1 to 12.
    Thermal(u64),
    /// A hydro group, 1 or 2.
    Hydro(u64),
}

impl PlantId {
    /// Its statement.
    pub(crate) fn head(self) -> Head
        ensures { result ≡ head_of_id self }
    {
        match self {
            PlantId::Existing(p) => Head::Plant(p),
            PlantId::Thermal(k) => Head::Thermal(k),
            PlantId::Hydro(g) => Head::Hydro(g),
        }
    }
}

/// A name of 1 to 8 letters, digits, `_` and `-`, which contracts see as its bytes.
#[derive(Clone, Copy, Debug)]
pub struct Name {
    /// The bytes, and zeros from `len` on.
    bytes: [u8; 8],
    len: usize,
}

impl Model for Name {
    ghost use Rattle.std.specs.Prelude.{List, ℕ, take};
    ghost use Rattle.checked_deck.specs.Names.{IsPadded, padded, padded_back};

    ghost Value = { List ℕ };

    ghost view = { λ n. take n.len n.bytes };

    ghost invariant = { λ n. IsPadded n.bytes n.len };

    ghost inverse = { padded };

    ghost inverse_ok = { padded_back };
}

impl Name {
    /// The bytes of the name.
    pub fn as_bytes(&self) -> &[u8]
        ensures value { result.now ≡ self.now }
        ensures name { IsTrue (is_name self.now) }
    {
        &self.bytes[..self.len]
    }
}

/// Writes a text at the start of a row of eight.
fn write_bytes(text: &[u8], bytes: &mut [u8])
    requires fits { length text.now ≤ length bytes.old }
    ensures front { take (length text.now) bytes.new ≡ text.now }
    ensures rest { drop (length text.now) bytes.new ≡ drop (length text.now) bytes.old }
{
    for i in 0..text.len() {
        bytes[i] = text[i];
    }
}

impl Name {
    /// The name with these bytes.
    pub fn new(text: &[u8]) -> Name
        requires { IsTrue (is_name text.now) }
        ensures { result ≡ text.now }
    {
        let mut bytes = [0; 8];
        write_bytes(text, &mut bytes);
        Name {
            bytes,
            len: text.len(),
        }
    }
}
