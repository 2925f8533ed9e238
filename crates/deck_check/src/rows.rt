//! When each row of the fault table is met.
ghost use Rattle.std.specs.Prelude.{◌≡◌, ◌==◌, ◌≤◌, ◌<◌, ◌+◌, ◌-◌, ◌*◌, ◌/◌, ◌&&◌, ◌||◌, ◌^◌, nat_lt, not, length, slice_index};
ghost use Rattle.std.specs.List.{list_any, range_with_len};
ghost use Rattle.deck_lines.specs.Deck.{body_of};
ghost use Rattle.deck_lines.specs.declared.head.Head.TheVariants as heads;
ghost use Rattle.deck_check.specs.DeckFault as spec;
ghost use Rattle.deck_check.specs.Order.{row_of};
ghost use Rattle.deck_check.specs.Readings as says;

use crate::candidates::{greatest_at, many_codes, width};
use crate::plants::{come, full, gone, least, plant_head};
use crate::readings::{
    is_there, number, number_at, numbers, periods, step, version, weights, years,
};
use crate::table::FaultRow;
use deck_lines::{Deck, Head};

/// Whether a statement stands, and has not so many numbers.
fn has_not(deck: &Deck, head: Head, count: usize) -> bool
    ensures { result ≡ spec.stated (body_of deck.now) head (λ ns. not (length ns == count)) }
{
    is_there(deck, head) && numbers(deck, head).len() != count
}

/// Whether a LOAD names a shape.
fn names_shape(load: &[u64], s: u64) -> bool
    ensures { result ≡ spec.names_shape s load.now }
{
    (0..load.len() / 2).any(|i| number_at(load, 2 * i + 1) == s)
}

/// Whether a LOAD names a shape that is absent.
fn no_shape(deck: &Deck, t: u64, s: u64) -> bool
    ensures { result ≡ (row_of FaultRow.NoShape (body_of deck.now)).holds t s 0 }
{
    let load = Head::Load(t);
    is_there(deck, load) && names_shape(numbers(deck, load), s) && !is_there(deck, Head::Shape(s))
}

/// Whether a point, counted from 1, is out of order.
fn is_bad_point(shape: &[u64], i: u64) -> bool
    requires { i < 2 ^ 62 }
    ensures { result ≡ spec.is_bad_point i shape.now }
{
    let place = 2 * (i.saturating_sub(1) as usize);
    let before = 2 * (i.saturating_sub(1).saturating_sub(1) as usize);
    let load = number_at(shape, place);
    let steps_back = load <= number_at(shape, before)
        || number_at(shape, before + 1) < number_at(shape, place + 1);
    (i == 1 && load != 0)
        || (i > 1 && steps_back)
        || (i == (shape.len() / 2) as u64 && load != 10_000)
}

/// Whether there is an ADD or a RETIRE of a plant that is absent.
fn no_plant(deck: &Deck, p: u64, t: u64) -> bool
    ensures { result ≡ (row_of FaultRow.NoPlant (body_of deck.now)).holds p t 0 }
{
    (is_there(deck, Head::Add(p, t)) || is_there(deck, Head::Retire(p, t)))
        && !is_there(deck, Head::Plant(p))
}

/// Whether more units of a plant go than came.
fn negative(deck: &Deck, p: u64, t: u64) -> bool
    requires { t ≤ says.years (body_of deck.now) }
    ensures { result ≡ (row_of FaultRow.Negative (body_of deck.now)).holds p t 0 }
{
    // Its reading tells the proof that there are at most 30 years.
    let _years = years(deck);
    come(deck, p, t) < gone(deck, p, t)
}

/// Whether a project has a WATER in one of so many periods.
fn has_water(deck: &Deck, g: u64, j: u64, periods: u64) -> bool
    requires { periods ≤ 12 }
    ensures { result ≡ list_any (λ m. says.is_there (body_of deck.now) (heads.Water g j m)) (range_with_len 1 periods) }
{
    (1..periods + 1).any(|m| is_there(deck, Head::Water(g, j, m)))
}

/// Whether a project has a PROJECT or a WATER.
#[tactic(auto, unfolding(crate::specs::Readings::first))]
fn is_project(deck: &Deck, g: u64, j: u64) -> bool
    ensures { result ≡ spec.is_project (body_of deck.now) g j }
{
    is_there(deck, Head::Project(g, j)) || has_water(deck, g, j, 12)
}

/// Whether the capacity and the peak of a year are more than the grid can take.
fn is_strong(deck: &Deck, mw: u64) -> bool
    ensures { result ≡ (nat_lt (65535 * says.step (body_of deck.now)) mw || nat_lt 400000 mw) }
{
    65_535 * step(deck) < mw || mw > 400_000
}

/// Whether a case has no TUNNEL (1), MARGIN (2) or LOLP (3) for year 1.
fn no_case(deck: &Deck, c: u64, b: u64) -> bool
    ensures { result ≡ (row_of FaultRow.NoCase (body_of deck.now)).holds c b 0 }
{
    (b == 1 && !is_there(deck, Head::Tunnel(c, 1)))
        || (b == 2 && !is_there(deck, Head::Margin(c, 1)))
        || (b == 3 && !is_there(deck, Head::Lolp(c, 1)))
}

/// Whether a TUNNEL goes above the greatest count of a candidate, counted from 1.
fn tunnel_high(deck: &Deck, c: u64, t: u64, k: u64) -> bool
    requires { k < 2 ^ 62 }
    ensures { result ≡ (row_of FaultRow.TunnelHigh (body_of deck.now)).holds c t k }
{
    let head = Head::Tunnel(c, t);
    let place = k.saturating_sub(1) as usize;
    is_there(deck, head)
        && greatest_at(deck, place)
            < number(deck, head, 2 * place) + number(deck, head, 2 * place + 1)
}

/// Whether ENSMORE (1), ESCALATE (2) or GRID (3) stands in a deck of version 1.
fn old_form(deck: &Deck, a: u64) -> bool
    ensures { result ≡ (row_of FaultRow.OldForm (body_of deck.now)).holds a 0 0 }
{
    version(deck) == 1
        && ((a == 1 && is_there(deck, Head::EnsMore))
            || (a == 2 && is_there(deck, Head::Escalate))
            || (a == 3 && is_there(deck, Head::Grid)))
}

/// Whether a number of MW is no multiple of the step.
fn is_off(deck: &Deck, mw: u64) -> bool
    ensures { result ≡ spec.is_off (body_of deck.now) mw }
{
    mw % step(deck) != 0
}

/// Whether a base or peak block is no multiple of the step.
fn is_water_off(deck: &Deck, water: &[u64]) -> bool
    ensures { result ≡ spec.is_water_off (body_of deck.now) water.now }
{
    (0..water.len() / 3).any(|i| {
        is_off(deck, number_at(water, 3 * i)) || is_off(deck, number_at(water, 3 * i + 1))
    })
}

impl FaultRow {
    /// Whether the row is met with these numbers.
    pub(crate) fn holds(self, deck: &Deck, a: u64, b: u64, c: u64) -> bool
        requires b { b ≤ ((row_of self (body_of deck.now)).b a).to }
        requires small_b { b < 2 ^ 62 }
        requires small_c { c < 2 ^ 62 }
        ensures { result ≡ (row_of self (body_of deck.now)).holds a b c }
    {
        match self {
            FaultRow::NoYears => !is_there(deck, Head::Years),
            FaultRow::NoPeriods => !is_there(deck, Head::Periods),
            FaultRow::NoRate => !is_there(deck, Head::Rate),
            FaultRow::NoEns => !is_there(deck, Head::Ens),
            FaultRow::NoCandidate => width(deck) == 0,
            FaultRow::NoLoad => !is_there(deck, Head::Load(a)),
            FaultRow::LoadCount => has_not(deck, Head::Load(a), 2 * periods(deck) as usize),
            FaultRow::NoShape => no_shape(deck, a, b),
            FaultRow::ShapeForm => is_bad_point(numbers(deck, Head::Shape(a)), b),
            FaultRow::NoFuel => is_there(deck, plant_head(a)) && !is_there(deck, Head::Fuel(b)),
            FaultRow::Blocks => full(deck, a) < least(deck, a),
            FaultRow::NoPlant => no_plant(deck, a, b),
            FaultRow::Negative => negative(deck, a, b),
            FaultRow::Weights => a != 10_000,
            FaultRow::NoGroup => is_project(deck, a, b) && !is_there(deck, Head::Hydro(a)),
            FaultRow::NoProject => !is_there(deck, Head::Project(a, b)),
            FaultRow::NoWater => !is_there(deck, Head::Water(a, b, c)),
            FaultRow::WaterCount => has_not(deck, Head::Water(a, b, c), 3 * weights(deck).len()),
            FaultRow::Units => b > 128,
            FaultRow::Power => is_strong(deck, b),
            FaultRow::Codes => many_codes(deck),
            FaultRow::NoCase => no_case(deck, a, b),
            FaultRow::TunnelCount => has_not(deck, Head::Tunnel(a, b), 2 * width(deck)),
            FaultRow::TunnelHigh => tunnel_high(deck, a, b, c),
            FaultRow::OldForm => old_form(deck, a),
            FaultRow::StepUnit => is_off(deck, least(deck, a)) || is_off(deck, full(deck, a)),
            FaultRow::StepWater => is_water_off(deck, numbers(deck, Head::Water(a, b, c))),
        }
    }
}
