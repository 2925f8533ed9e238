//! The parts of a year's system, read from a deck that has no fault.
ghost use Rattle.std.specs.Prelude.{◌≡◌, ◌≤◌, ◌<◌, ◌+◌, ◌++◌, map, length, IfOk};
ghost use Rattle.std.specs.List.{flat_map};
ghost use Rattle.deck_lines.specs.Deck.{body_of};
ghost use Rattle.checked_deck.specs.Systems as spec;
ghost use Rattle.deck_check.specs.Readings as says;
ghost use Rattle.deck_check.specs.Readings.{first};
ghost use Rattle.checked_deck.specs.TypedDeck.{IsTyped};
ghost use Rattle.year_system.specs.System.{IsSystem};

use deck_check::{
    GROUPS, PLANTS, THERMAL, fuel, full, greatest_units, is_there, least, number, number_at,
    numbers, periods, plant_number, projects, step, units_in, weights, years,
};
use deck_lines::{Deck, Head};
use plant_data::{Group, Listed, Load, Plant, Point, Rule, Shape, Water};
use std::alloc::Global;
use wasp_fixed::OutOfMemory;
use year_system::YearSystem;

/// The rule of loading.
fn rule_of(deck: &Deck) -> Rule
    ensures { result ≡ spec.rule (body_of deck.now) }
{
    match deck.get(&Head::Rule) {
        Some(body) if body.name() == b"BASE".as_slice() => Rule::BaseFirst,
        _ => Rule::Merit,
    }
}

/// The weights of the hydro conditions.
pub fn weights_of(alloc: Global, deck: &Deck) -> Result<Listed<u64>, OutOfMemory>
    ensures { IfOk result (λ ws. ws ≡ says.weights (body_of deck.now)) }
{
    let mut copied = Vec::new(alloc);
    copied.extend_from_slice(weights(deck))?;
    Ok(Listed::new(copied))
}

/// The points of a shape.
#[tactic(auto, using(deck_check::proofs::Firsts::from_0_more))]
fn points_of(alloc: Global, deck: &Deck, s: u64) -> Result<Vec<Point>, OutOfMemory>
    ensures { IfOk result (λ ps. ps.items ≡ says.points (body_of deck.now) s) }
{
    let shape = numbers(deck, Head::Shape(s));
    let mut points = Vec::new(alloc);
    for i in 0..shape.len() / 2 {
        points.push(Point {
            load: number_at(shape, 2 * i),
            share: number_at(shape, 2 * i + 1),
        })?;
    }
    Ok(points)
}

/// The load of a period of a year, the period counted from 0.
pub fn load_of(alloc: Global, deck: &Deck, t: u64, i: usize) -> Result<Load, OutOfMemory>
    requires typed { IsTyped deck.now }
    requires low { 1 ≤ t }
    requires high { t ≤ says.years (body_of deck.now) }
    requires period { i < says.periods (body_of deck.now) }
    ensures { IfOk result (λ l. l ≡ says.load_in (body_of deck.now) t i) }
{
    // Its reading tells the proof that there are at most 12 periods.
    let _periods = periods(deck);
    let load = numbers(deck, Head::Load(t));
    let points = points_of(alloc, deck, number_at(load, 2 * i + 1))?;
    Ok(Load {
        peak: number_at(load, 2 * i),
        shape: Shape::new(points),
    })
}

/// The load of each period of a year.
#[tactic(auto, using(deck_check::proofs::Firsts::from_0_more))]
fn loads_of(alloc: Global, deck: &Deck, t: u64) -> Result<Listed<Load>, OutOfMemory>
    requires typed { IsTyped deck.now }
    requires low { 1 ≤ t }
    requires high { t ≤ says.years (body_of deck.now) }
    ensures { IfOk result (λ ls. ls ≡ says.loads (body_of deck.now) t) }
{
    let mut loads = Vec::new(alloc);
    for i in 0..periods(deck) as usize {
        loads.push(load_of(alloc, deck, t, i)?)?;
    }
    Ok(Listed::new(loads))
}

/// A plant with so many units.
fn plant_of(deck: &Deck, a: u64, units: u64) -> Plant
    ensures { result ≡ spec.plant_of (body_of deck.now) a units }
{
    let price = Head::Fuel(fuel(deck, a));
    Plant {
        number: a,
        units,
        least: least(deck, a),
        full: full(deck, a),
        heat: plant_number(deck, a, 3),
        inc: plant_number(deck, a, 4),
        domestic: number(deck, price, 0),
        foreign: number(deck, price, 1),
        variable: plant_number(deck, a, 7),
        outage: plant_number(deck, a, 8),
        repair: plant_number(deck, a, 9),
    }
}

/// The existing plants with at least one unit in a year.
#[tactic(auto, using(deck_check::proofs::Firsts::first_none, deck_check::proofs::Firsts::passed_more_yes, deck_check::proofs::Firsts::passed_more_no))]
fn existing_of(alloc: Global, deck: &Deck, t: u64) -> Result<Listed<Plant>, OutOfMemory>
    requires { t ≤ 30 }
    ensures { IfOk result (λ ps. ps ≡ spec.existing_in (body_of deck.now) t) }
{
    let mut plants = Vec::new(alloc);
    for p in 0..PLANTS {
        let units = units_in(deck, p + 1, t);
        if units > 0 {
            plants.push(plant_of(deck, p + 1, units))?;
        }
    }
    Ok(Listed::new(plants))
}

/// The thermal candidates at their greatest counts.
#[tactic(auto, using(deck_check::proofs::Firsts::first_none, deck_check::proofs::Firsts::kept_more_yes, deck_check::proofs::Firsts::kept_more_no))]
fn thermal_of(alloc: Global, deck: &Deck) -> Result<Listed<Plant>, OutOfMemory>
    ensures { IfOk result (λ ps. ps ≡ spec.thermal (body_of deck.now)) }
{
    let mut plants = Vec::new(alloc);
    for k in 0..THERMAL {
        if is_there(deck, Head::Thermal(k + 1)) {
            plants.push(plant_of(deck, PLANTS + (k + 1), greatest_units(deck, k + 1)))?;
        }
    }
    Ok(Listed::new(plants))
}

/// Adds the water of a project in a period, under each condition.
#[tactic(auto, using(deck_check::proofs::Firsts::from_0_more))]
fn push_conditions(
    deck: &Deck,
    g: u64,
    j: u64,
    m: u64,
    table: &mut Vec<Water>,
) -> Result<(), OutOfMemory>
    ensures { IfOk result (λ _. table.new.items ≡ table.old.items ++ spec.project_water (body_of deck.now) g j m) }
{
    let water = numbers(deck, Head::Water(g, j, m));
    for i in 0..weights(deck).len() {
        table.push(Water {
            base: number_at(water, 3 * i),
            peak: number_at(water, 3 * i + 1),
            energy: number_at(water, 3 * i + 2),
        })?;
    }
    Ok(())
}

/// Adds the water of a project, by period and condition.
#[tactic(auto, using(deck_check::proofs::Firsts::first_none, deck_check::proofs::Firsts::flat_more))]
fn push_periods(deck: &Deck, g: u64, j: u64, table: &mut Vec<Water>) -> Result<(), OutOfMemory>
    ensures { IfOk result (λ _. table.new.items ≡ table.old.items ++ flat_map (spec.project_water (body_of deck.now) g j) (first (says.periods (body_of deck.now)))) }
{
    for m in 0..periods(deck) {
        push_conditions(deck, g, j, m + 1, table)?;
    }
    Ok(())
}

/// The water of a group's projects, by project, period and condition.
#[tactic(auto, using(deck_check::proofs::Firsts::first_none, deck_check::proofs::Firsts::flat_more))]
fn water_of(alloc: Global, deck: &Deck, g: u64) -> Result<Listed<Water>, OutOfMemory>
    ensures { IfOk result (λ ws. ws ≡ spec.group_water (body_of deck.now) g) }
{
    let mut table = Vec::new(alloc);
    for j in 0..projects(deck, g) {
        push_periods(deck, g, j + 1, &mut table)?;
    }
    Ok(Listed::new(table))
}

/// The hydro groups.
#[tactic(auto, using(deck_check::proofs::Firsts::first_none, deck_check::proofs::Firsts::kept_more_yes, deck_check::proofs::Firsts::kept_more_no))]
fn groups_of(alloc: Global, deck: &Deck) -> Result<Listed<Group>, OutOfMemory>
    ensures { IfOk result (λ gs. gs ≡ spec.groups (body_of deck.now)) }
{
    let mut groups = Vec::new(alloc);
    for g in 0..GROUPS {
        if is_there(deck, Head::Hydro(g + 1)) {
            groups.push(Group {
                number: g + 1,
                existing: number(deck, Head::Hydro(g + 1), 0),
                greatest: number(deck, Head::Hydro(g + 1), 1),
                water: water_of(alloc, deck, g + 1)?,
            })?;
        }
    }
    Ok(Listed::new(groups))
}

/// The physical system of a year.
pub fn system_of(alloc: Global, deck: &Deck, t: u64) -> Result<YearSystem, OutOfMemory>
    requires typed { IsTyped deck.now }
    requires low { 1 ≤ t }
    requires high { t ≤ says.years (body_of deck.now) }
    ensures value { IfOk result (λ system. system ≡ spec.system (body_of deck.now) t) }
    ensures is_system { IfOk result (λ system. IsSystem system) }
{
    // Its reading tells the proof that there are at most 30 years.
    let _years = years(deck);
    Ok(YearSystem::new(
        rule_of(deck),
        loads_of(alloc, deck, t)?,
        weights_of(alloc, deck)?,
        existing_of(alloc, deck, t)?,
        thermal_of(alloc, deck)?,
        groups_of(alloc, deck)?,
        step(deck),
    ))
}
