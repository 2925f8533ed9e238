//! The study of a case, and that of all cases of a deck.
ghost use Rattle.std.specs.Prelude.{◌≡◌};
ghost use Rattle.case_study.specs.Inner.{IsDeckStudy};
ghost use Rattle.case_study.specs.Studies.{IsStudy};

use checked_deck::TypedDeck;
use plant_data::{Config, Listed, Tunnel};
use row_shelf::CaseLists;
use std::marker::Model;

/// A deck without a fault, a case with its tunnels and the configurations listed for each year, and the numbers of the
/// years' systems on a shelf.
#[derive(Drop)]
pub struct Study<'a> {
    typed: &'a TypedDeck,
    case: u64,
    tunnels: &'a [Tunnel],
    lists: &'a [Listed<Config>],
    ids: &'a [u64],
}

impl<'a> Model for Study<'a> {
    ghost use Rattle.case_study.specs.Studies.{IsStudy, StudyIs};

    ghost Value = { StudyIs };

    ghost view = { λ s. record { deck = s.typed.now; case = s.case; tunnels = s.tunnels.now; lists = s.lists.now; ids = s.ids.now } };

    ghost invariant = { λ s. IsStudy (record { deck = s.typed.now; case = s.case; tunnels = s.tunnels.now; lists = s.lists.now; ids = s.ids.now }) };
}

impl<'a> Study<'a> {
    /// By its parts.
    pub fn new(
        typed: &'a TypedDeck,
        case: u64,
        tunnels: &'a [Tunnel],
        lists: &'a [Listed<Config>],
        ids: &'a [u64],
    ) -> Study<'a>
        requires { IsStudy (record {
          deck = typed.now;
          case = case;
          tunnels = tunnels.now;
          lists = lists.now;
          ids = ids.now;
        }) }
        ensures { result ≡ record {
          deck = typed.now;
          case = case;
          tunnels = tunnels.now;
          lists = lists.now;
          ids = ids.now;
        } }
    {
        Study {
            typed,
            case,
            tunnels,
            lists,
            ids,
        }
    }

    /// The deck.
    pub fn typed(&self) -> &TypedDeck
        ensures value { result.now ≡ self.now.deck }
        ensures valid { IsStudy self.now }
    {
        self.typed
    }

    /// The number of the case.
    pub fn case(&self) -> u64
        ensures value { result ≡ self.now.case }
        ensures valid { IsStudy self.now }
    {
        self.case
    }

    /// The tunnels, one a year.
    pub fn tunnels(&self) -> &[Tunnel]
        ensures value { result.now ≡ self.now.tunnels }
        ensures valid { IsStudy self.now }
    {
        self.tunnels
    }

    /// The listed configurations of each year.
    pub fn lists(&self) -> &[Listed<Config>]
        ensures value { result.now ≡ self.now.lists }
        ensures valid { IsStudy self.now }
    {
        self.lists
    }

    /// The number of each year's system.
    pub fn ids(&self) -> &[u64]
        ensures value { result.now ≡ self.now.ids }
        ensures valid { IsStudy self.now }
    {
        self.ids
    }
}

/// A deck without a fault, the configurations listed for each of its cases under the deck's own tunnels, and the
/// numbers of the years' systems on a shelf.
#[derive(Drop)]
pub struct DeckStudy<'a> {
    typed: &'a TypedDeck,
    cases: &'a [CaseLists],
    ids: &'a [u64],
}

impl<'a> Model for DeckStudy<'a> {
    ghost use Rattle.case_study.specs.Inner.{DeckStudyIs, IsDeckStudy};

    ghost Value = { DeckStudyIs };

    ghost view = { λ s. record { deck = s.typed.now; cases = s.cases.now; ids = s.ids.now } };

    ghost invariant = { λ s. IsDeckStudy (record { deck = s.typed.now; cases = s.cases.now; ids = s.ids.now }) };
}

impl<'a> DeckStudy<'a> {
    /// By its parts.
    pub fn new(typed: &'a TypedDeck, cases: &'a [CaseLists], ids: &'a [u64]) -> DeckStudy<'a>
        requires { IsDeckStudy (record { deck = typed.now; cases = cases.now; ids = ids.now }) }
        ensures { result ≡ record { deck = typed.now; cases = cases.now; ids = ids.now } }
    {
        DeckStudy { typed, cases, ids }
    }

    /// The deck.
    pub fn typed(&self) -> &TypedDeck
        ensures value { result.now ≡ self.now.deck }
        ensures valid { IsDeckStudy self.now }
    {
        self.typed
    }

    /// The listed configurations of each case and year.
    pub fn cases(&self) -> &[CaseLists]
        ensures value { result.now ≡ self.now.cases }
        ensures valid { IsDeckStudy self.now }
    {
        self.cases
    }

    /// The number of each year's system.
    pub fn ids(&self) -> &[u64]
        ensures value { result.now ≡ self.now.ids }
        ensures valid { IsDeckStudy self.now }
    {
        self.ids
    }
}
