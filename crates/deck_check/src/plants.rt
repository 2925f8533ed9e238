//! The units of plants in a year, and what a year can take.
ghost use Rattle.std.specs.Prelude.{◌≡◌, ◌≤◌, ◌+◌, ◌*◌, map, sum, length};
ghost use Rattle.deck_lines.specs.declared.head.Head.TheVariants as heads;
ghost use Rattle.deck_lines.specs.Deck.{body_of};
ghost use Rattle.deck_check.specs.Readings as spec;
ghost use Rattle.deck_check.specs.Readings.{first};

use crate::readings::{number, number_at, numbers, periods};
use deck_lines::{Deck, Head};

/// The existing plants that a deck can have.
pub const PLANTS: u64 = 40;

/// The thermal candidates that a deck can have.
pub const THERMAL: u64 = 12;

/// The hydro groups that a deck can have.
pub const GROUPS: u64 = 2;

/// The statement of a plant: 1 to 40 are existing plants, and 41 to 52 are thermal candidates.
pub fn plant_head(a: u64) -> Head
    ensures { result ≡ spec.plant_head a }
{
    if a <= PLANTS {
        Head::Plant(a)
    } else {
        Head::Thermal(a - PLANTS)
    }
}

/// A number of a plant's statement, the same for existing plants and candidates.
pub fn plant_number(deck: &Deck, a: u64, place: usize) -> u64
    requires { place ≤ 9 }
    ensures value { result ≡ spec.number (body_of deck.now) (spec.plant_head a) place }
    ensures small { result ≤ 100000 }
{
    number(deck, plant_head(a), place)
}

/// The base block of a unit in MW.
pub fn least(deck: &Deck, a: u64) -> u64
    ensures value { result ≡ spec.least (body_of deck.now) a }
    ensures small { result ≤ 20000 }
{
    number(deck, plant_head(a), 1)
}

/// A whole unit in MW.
pub fn full(deck: &Deck, a: u64) -> u64
    ensures value { result ≡ spec.full (body_of deck.now) a }
    ensures small { result ≤ 20000 }
{
    number(deck, plant_head(a), 2)
}

/// The number of a plant's fuel.
pub fn fuel(deck: &Deck, a: u64) -> u64
    ensures value { result ≡ spec.fuel (body_of deck.now) a }
    ensures small { result ≤ 20 }
{
    number(deck, plant_head(a), 5)
}

/// The units of a plant that stand or come up to a year, that year's included.
#[tactic(auto, using(crate::proofs::Firsts::first_none, crate::proofs::Firsts::sum_more))]
pub fn come(deck: &Deck, p: u64, t: u64) -> u64
    requires { t ≤ 30 }
    ensures value { result ≡ spec.come (body_of deck.now) p t }
    ensures small { result ≤ 3968 }
{
    let mut units = number(deck, Head::Plant(p), 0);
    for u in 0..t {
        units += number(deck, Head::Add(p, u + 1), 0);
    }
    units
}

/// The units of a plant that go up to a year, that year's included.
#[tactic(auto, using(crate::proofs::Firsts::first_none, crate::proofs::Firsts::sum_more))]
pub fn gone(deck: &Deck, p: u64, t: u64) -> u64
    requires { t ≤ 30 }
    ensures value { result ≡ spec.gone (body_of deck.now) p t }
    ensures small { result ≤ 3840 }
{
    let mut units = 0;
    for u in 0..t {
        units += number(deck, Head::Retire(p, u + 1), 0);
    }
    units
}

/// The units of a plant in a year.
pub fn units_in(deck: &Deck, p: u64, t: u64) -> u64
    requires { t ≤ 30 }
    ensures value { result ≡ spec.units_in (body_of deck.now) p t }
    ensures small { result ≤ 3968 }
{
    come(deck, p, t).saturating_sub(gone(deck, p, t))
}

/// The greatest count of a thermal candidate, and 0 where it is absent.
pub fn greatest_units(deck: &Deck, k: u64) -> u64
    ensures value { result ≡ spec.number (body_of deck.now) (heads.Thermal k) 0 }
    ensures small { result ≤ 128 }
{
    number(deck, Head::Thermal(k), 0)
}

/// The existing units of a year.
#[tactic(auto, using(crate::proofs::Firsts::first_none, crate::proofs::Firsts::sum_more))]
fn standing_units(deck: &Deck, t: u64) -> u64
    requires { t ≤ 30 }
    ensures value { result ≡ sum (map (λ p. spec.units_in (body_of deck.now) p t) (first 40)) }
    ensures small { result ≤ 158720 }
{
    let mut units = 0;
    for p in 0..PLANTS {
        units += units_in(deck, p + 1, t);
    }
    units
}

/// The greatest counts of the thermal candidates together.
#[tactic(auto, using(crate::proofs::Firsts::first_none, crate::proofs::Firsts::sum_more))]
fn new_units(deck: &Deck) -> u64
    ensures value { result ≡ sum (map (λ k. spec.number (body_of deck.now) (heads.Thermal k) 0) (first 12)) }
    ensures small { result ≤ 1536 }
{
    let mut units = 0;
    for k in 0..THERMAL {
        units += greatest_units(deck, k + 1);
    }
    units
}

/// The existing units of a year and the greatest counts of the thermal candidates.
pub fn units(deck: &Deck, t: u64) -> u64
    requires { t ≤ 30 }
    ensures value { result ≡ spec.units (body_of deck.now) t }
    ensures small { result ≤ 200000 }
{
    standing_units(deck, t) + new_units(deck)
}

/// The full capacity of the existing units of a year in MW.
#[tactic(auto, using(crate::proofs::Firsts::first_none, crate::proofs::Firsts::sum_more))]
fn standing_mw(deck: &Deck, t: u64) -> u64
    requires { t ≤ 30 }
    ensures value { result ≡ sum (map (λ p. spec.units_in (body_of deck.now) p t * spec.full (body_of deck.now) p) (first 40)) }
    ensures small { result ≤ 4000000000 }
{
    let mut mw = 0;
    for p in 0..PLANTS {
        mw += units_in(deck, p + 1, t) * full(deck, p + 1);
    }
    mw
}

/// The full capacity of the thermal candidates at their greatest counts in MW.
#[tactic(auto, using(crate::proofs::Firsts::first_none, crate::proofs::Firsts::sum_more))]
fn new_mw(deck: &Deck) -> u64
    ensures value { result ≡ sum (map (λ k. spec.number (body_of deck.now) (heads.Thermal k) 0 * spec.full (body_of deck.now) (40 + k)) (first 12)) }
    ensures small { result ≤ 4000000000 }
{
    let mut mw = 0;
    for k in 0..THERMAL {
        mw += greatest_units(deck, k + 1) * full(deck, PLANTS + (k + 1));
    }
    mw
}

/// The full capacity of all these units in MW.
pub fn capacity(deck: &Deck, t: u64) -> u64
    requires { t ≤ 30 }
    ensures value { result ≡ spec.capacity (body_of deck.now) t }
    ensures small { result ≤ 8000000000 }
{
    standing_mw(deck, t) + new_mw(deck)
}

/// The greatest peak of a year in MW.
#[tactic(auto, using(crate::proofs::Peaks::peak_more))]
pub fn peak(deck: &Deck, t: u64) -> u64
    ensures value { result ≡ spec.peak (body_of deck.now) t }
    ensures small { result ≤ 400000 }
{
    let load = numbers(deck, Head::Load(t));
    let mut most = 0;
    for i in 0..periods(deck) as usize {
        most = most.max(number_at(load, 2 * i));
    }
    most
}

/// The projects of a group, those that stand and those that can be built.
pub fn projects(deck: &Deck, g: u64) -> u64
    ensures value { result ≡ spec.projects (body_of deck.now) g }
    ensures small { result ≤ 30 }
{
    number(deck, Head::Hydro(g), 0) + number(deck, Head::Hydro(g), 1)
}
