//! The head of a statement.
ghost use Rattle.std.specs.Prelude.{◌≡◌, ◌↔◌, IsTrue, slice_index};
ghost use Rattle.deck_lines.specs.Statements.{head_of, key_of, same_head, shown_key};

use crate::head_word::HeadWord;

/// The place of a head's word in the table, and its index numbers, 0 where it has fewer.
#[derive(Clone, Copy)]
struct Key {
    place: u64,
    i: u64,
    j: u64,
    k: u64,
}

/// A head word with its index numbers. Years are 1 to 30, cases 1 to 8, plants 1 to 40, thermal
/// candidates 1 to 12, groups 1 to 2, projects 1 to 30, periods 1 to 12, fuels 1 to 20, shapes 1 to
/// 100.
#[derive(Clone, Copy, Debug, PartialEq, Eq)]
pub enum Head {
    Years,
    Periods,
    Rate,
    Ens,
    Rule,
    Cases,
    Conditions,
    /// Its shape.
    Shape(u64),
    /// Its fuel.
    Fuel(u64),
    /// Its year.
    Load(u64),
    /// Its plant.
    Plant(u64),
    /// Its plant, year.
    Add(u64, u64),
    /// Its plant, year.
    Retire(u64, u64),
    /// Its candidate.
    Thermal(u64),
    /// Its group.
    Hydro(u64),
    /// Its group, project.
    Project(u64, u64),
    /// Its group, project, period.
    Water(u64, u64, u64),
    /// Its case, year.
    Tunnel(u64, u64),
    /// Its case, year.
    Margin(u64, u64),
    /// Its case, year.
    Lolp(u64, u64),
    Version,
    EnsMore,
    Escalate,
    Grid,
}

impl Key {
    fn at(place: u64, i: u64, j: u64, k: u64) -> Key
        ensures { result ≡ record { place = place; i = i; j = j; k = k } }
    {
        Key { place, i, j, k }
    }
}

impl Head {
    fn key(self) -> Key
        ensures { shown_key result ≡ key_of self }
    {
        match self {
            Head::Years => Key::at(0, 0, 0, 0),
            Head::Periods => Key::at(1, 0, 0, 0),
            Head::Rate => Key::at(2, 0, 0, 0),
            Head::Ens => Key::at(3, 0, 0, 0),
            Head::Rule => Key::at(4, 0, 0, 0),
            Head::Cases => Key::at(5, 0, 0, 0),
            Head::Conditions => Key::at(6, 0, 0, 0),
            Head::Shape(i) => Key::at(7, i, 0, 0),
            Head::Fuel(i) => Key::at(8, i, 0, 0),
            Head::Load(i) => Key::at(9, i, 0, 0),
            Head::Plant(i) => Key::at(10, i, 0, 0),
            Head::Add(i, j) => Key::at(11, i, j, 0),
            Head::Retire(i, j) => Key::at(12, i, j, 0),
            Head::Thermal(i) => Key::at(13, i, 0, 0),
            Head::Hydro(i) => Key::at(14, i, 0, 0),
            Head::Project(i, j) => Key::at(15, i, j, 0),
            Head::Water(i, j, k) => Key::at(16, i, j, k),
            Head::Tunnel(i, j) => Key::at(17, i, j, 0),
            Head::Margin(i, j) => Key::at(18, i, j, 0),
            Head::Lolp(i, j) => Key::at(19, i, j, 0),
            Head::Version => Key::at(20, 0, 0, 0),
            Head::EnsMore => Key::at(21, 0, 0, 0),
            Head::Escalate => Key::at(22, 0, 0, 0),
            Head::Grid => Key::at(23, 0, 0, 0),
        }
    }

    /// Whether two heads have the same word and the same index numbers.
    pub(crate) fn is_same(self, other: Head) -> bool
        ensures same { result ≡ same_head self other }
        ensures equal { IsTrue result ↔ (self ≡ other) }
    {
        let (a, b) = (self.key(), other.key());
        a.place == b.place && a.i == b.i && a.j == b.j && a.k == b.k
    }
}

fn index_at(index: &[u64], place: usize) -> u64
    ensures { result ≡ slice_index index.now place }
{
    index.get(place).copied().unwrap_or(0)
}

/// The head of a word and its index numbers.
pub(crate) fn headed_by(word: HeadWord, index: &[u64]) -> Head
    ensures { result ≡ head_of word index.now }
{
    let (i, j, k) = (index_at(index, 0), index_at(index, 1), index_at(index, 2));
    match word {
        HeadWord::Years => Head::Years,
        HeadWord::Periods => Head::Periods,
        HeadWord::Rate => Head::Rate,
        HeadWord::Ens => Head::Ens,
        HeadWord::Rule => Head::Rule,
        HeadWord::Cases => Head::Cases,
        HeadWord::Conditions => Head::Conditions,
        HeadWord::Shape => Head::Shape(i),
        HeadWord::Fuel => Head::Fuel(i),
        HeadWord::Load => Head::Load(i),
        HeadWord::Plant => Head::Plant(i),
        HeadWord::Add => Head::Add(i, j),
        HeadWord::Retire => Head::Retire(i, j),
        HeadWord::Thermal => Head::Thermal(i),
        HeadWord::Hydro => Head::Hydro(i),
        HeadWord::Project => Head::Project(i, j),
        HeadWord::Water => Head::Water(i, j, k),
        HeadWord::Tunnel => Head::Tunnel(i, j),
        HeadWord::Margin => Head::Margin(i, j),
        HeadWord::Lolp => Head::Lolp(i, j),
        HeadWord::Version => Head::Version,
        HeadWord::EnsMore => Head::EnsMore,
        HeadWord::Escalate => Head::Escalate,
        HeadWord::Grid => Head::Grid,
    }
}
