//! The statements of a case, which hold from their year on.
ghost use Rattle.std.specs.Prelude.{◌≡◌, ◌≤◌, ◌<◌, ◌+◌};
ghost use Rattle.deck_lines.specs.Deck.{body_of};
ghost use Rattle.deck_lines.specs.declared.head.Head.TheVariants as heads;
ghost use Rattle.checked_deck.specs.TypedDeck as spec;
ghost use Rattle.checked_deck.specs.TypedDeck.{IsTyped};
ghost use Rattle.wasp_fixed.specs.declared.numbers.TheConstants.{ONE};

use deck_check::{is_there, number, number_at, numbers, width};
use deck_lines::{Deck, Head};
use plant_data::{Config, Limit, Margin, Tunnel};

/// What a case has in each year.
#[derive(Clone, Copy, Debug, PartialEq, Eq)]
pub enum CaseWord {
    Tunnel,
    Margin,
    Lolp,
}

impl CaseWord {
    /// Its statement for a case and a year.
    fn head(self, case: u64, year: u64) -> Head
        ensures { result ≡ spec.head_at self case year }
    {
        match self {
            CaseWord::Tunnel => Head::Tunnel(case, year),
            CaseWord::Margin => Head::Margin(case, year),
            CaseWord::Lolp => Head::Lolp(case, year),
        }
    }
}

/// The year whose statement holds in a year, and 0 where there is none.
#[tactic(auto, using(crate::proofs::YearOf::year_back))]
fn year_of(deck: &Deck, word: CaseWord, case: u64, year: u64) -> u64
    ensures { result ≡ spec.year_of (body_of deck.now) (spec.head_at word case) year }
{
    for back in 0..year {
        if is_there(deck, word.head(case, year - back)) {
            return year - back;
        }
    }
    0
}

/// The first or the second counts of the pairs of a TUNNEL.
fn counts_in(deck: &Deck, case: u64, year: u64, part: usize) -> Config
    requires typed { IsTyped deck.now }
    requires part { part ≤ 1 }
    ensures { result ≡ spec.counts_in (body_of deck.now) (heads.Tunnel case year) part }
{
    let width = width(deck);
    let counts = numbers(deck, Head::Tunnel(case, year));
    let mut config = Config::zero(width);
    for k in 0..width {
        config.set(k, number_at(counts, 2 * k + part));
    }
    config
}

/// The tunnel of a case in a year.
pub fn tunnel_of(deck: &Deck, case: u64, year: u64) -> Tunnel
    requires { IsTyped deck.now }
    ensures { result ≡ spec.tunnel (body_of deck.now) case year }
{
    let from = year_of(deck, CaseWord::Tunnel, case, year);
    Tunnel {
        least: counts_in(deck, case, from, 0),
        width: counts_in(deck, case, from, 1),
    }
}

/// The margins of a case in a year.
pub fn margin_of(deck: &Deck, case: u64, year: u64) -> Margin
    ensures value { result ≡ spec.margin (body_of deck.now) case year }
    ensures low { result.low ≤ 100000 }
    ensures high { result.high ≤ 100000 }
{
    let head = Head::Margin(case, year_of(deck, CaseWord::Margin, case, year));
    Margin {
        low: number(deck, head, 0),
        high: number(deck, head, 1),
    }
}

/// The limits of a case in a year.
pub fn limit_of(deck: &Deck, case: u64, year: u64) -> Limit
    ensures value { result ≡ spec.limit (body_of deck.now) case year }
    ensures worst { result.worst ≤ ONE }
    ensures average { result.average ≤ ONE }
{
    let head = Head::Lolp(case, year_of(deck, CaseWord::Lolp, case, year));
    Limit {
        worst: number(deck, head, 0),
        average: number(deck, head, 1),
    }
}
