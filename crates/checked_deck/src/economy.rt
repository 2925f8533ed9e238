//! The data of the costs, read from a deck that has no fault.
ghost use Rattle.std.specs.Prelude.{◌≡◌, ◌≤◌, ◌<◌, ◌+◌, ◌-◌, ◌*◌, ◌/◌, ◌^◌, map, All, IfOk};
ghost use Rattle.deck_lines.specs.Deck.{body_of};
ghost use Rattle.checked_deck.specs.Economy as spec;
ghost use Rattle.deck_check.specs.Readings as says;
ghost use Rattle.deck_check.specs.Readings.{first};
ghost use Rattle.checked_deck.specs.TypedDeck.{IsTyped};
ghost use Rattle.cost_terms.specs.CostData.{IsEconomy};
ghost use Rattle.year_system.specs.System.{IsLoad};

use crate::parts::{load_of, weights_of};
use convolution::Curve;
use cost_terms::{
    CostData, Economy, GroupCost, PlantCost, ProjectCost, Rates, ShortagePrice, ThermalCost,
};
use deck_check::{
    GROUPS, PLANTS, THERMAL, full, greatest_units, is_there, number, periods, projects, step,
    units_in, version, years,
};
use deck_lines::{Deck, Head};
use load_curves::fill_curve;
use plant_data::{Listed, Load};
use std::alloc::Global;
use wasp_fixed::{ONE, OutOfMemory};

/// The energy under the load duration curve of a period of so many hours, in MWh.
fn energy(alloc: Global, step: u64, hours: u64, load: &Load) -> Result<u64, OutOfMemory>
    requires load { IsLoad load.now }
    requires step { 1 ≤ step }
    requires step_most { step ≤ 20 }
    requires cells { (load.now.peak + step - 1) / step ≤ 65535 }
    requires hours { hours ≤ 8760 }
    ensures value { IfOk result (λ mwh. mwh ≡ spec.energy step hours load.now) }
    ensures small { IfOk result (λ mwh. mwh ≤ 400019 * hours) }
{
    let cells = load.peak.div_ceil(step);
    let mut curve = Curve::with_room(alloc, cells as usize)?;
    fill_curve(load.peak, step, &load.shape, &mut curve);
    Ok(curve.area(0, cells) * step * hours / ONE)
}

/// The demand of a year in MWh.
fn demand(alloc: Global, deck: &Deck, t: u64) -> Result<u64, OutOfMemory>
    requires typed { IsTyped deck.now }
    requires low { 1 ≤ t }
    requires high { t ≤ says.years (body_of deck.now) }
    ensures value { IfOk result (λ mwh. mwh ≡ spec.demand (body_of deck.now) t) }
    ensures small { IfOk result (λ mwh. mwh < 2 ^ 32) }
{
    let periods = periods(deck);
    let mut total = 0;
    for i in 0..periods as usize {
        let load = load_of(alloc, deck, t, i)?;
        total += energy(alloc, step(deck), 8760 / periods, &load)?;
    }
    Ok(total)
}

/// The demand of each year.
#[tactic(auto, using(deck_check::proofs::Firsts::first_none, deck_check::proofs::Firsts::map_more))]
fn demands(alloc: Global, deck: &Deck) -> Result<Listed<u64>, OutOfMemory>
    requires { IsTyped deck.now }
    ensures value { IfOk result (λ ds. ds ≡ map (spec.demand (body_of deck.now)) (first (says.years (body_of deck.now)))) }
    ensures small { IfOk result (λ ds. All (λ mwh. mwh < 2 ^ 32) ds) }
{
    let mut demands = Vec::new(alloc);
    for t in 0..years(deck) {
        demands.push(demand(alloc, deck, t + 1)?)?;
    }
    Ok(Listed::new(demands))
}

/// The units of a plant in each year.
#[tactic(auto, using(deck_check::proofs::Firsts::first_none, deck_check::proofs::Firsts::map_more))]
fn units_by_year(alloc: Global, deck: &Deck, p: u64) -> Result<Listed<u64>, OutOfMemory>
    ensures { IfOk result (λ us. us ≡ map (says.units_in (body_of deck.now) p) (first (says.years (body_of deck.now)))) }
{
    let mut units = Vec::new(alloc);
    for t in 0..years(deck) {
        units.push(units_in(deck, p, t + 1))?;
    }
    Ok(Listed::new(units))
}

/// What the existing plants cost.
#[tactic(auto, using(deck_check::proofs::Firsts::first_none, deck_check::proofs::Firsts::kept_more_yes, deck_check::proofs::Firsts::kept_more_no))]
fn plant_costs(alloc: Global, deck: &Deck) -> Result<Listed<PlantCost>, OutOfMemory>
    ensures { IfOk result (λ ps. ps ≡ map (spec.plant_cost (body_of deck.now)) (spec.plant_numbers (body_of deck.now))) }
{
    let mut plants = Vec::new(alloc);
    for p in 0..PLANTS {
        if is_there(deck, Head::Plant(p + 1)) {
            plants.push(PlantCost {
                full: full(deck, p + 1),
                fixed: number(deck, Head::Plant(p + 1), 6),
                units: units_by_year(alloc, deck, p + 1)?,
            })?;
        }
    }
    Ok(Listed::new(plants))
}

fn thermal_cost(deck: &Deck, k: u64) -> ThermalCost
    ensures { result ≡ spec.thermal_cost (body_of deck.now) k }
{
    let head = Head::Thermal(k);
    ThermalCost {
        greatest: greatest_units(deck, k),
        full: number(deck, head, 2),
        fixed: number(deck, head, 6),
        capdom: number(deck, head, 10),
        capfor: number(deck, head, 11),
        stock: number(deck, head, 12),
        life: number(deck, head, 13),
    }
}

/// What the thermal candidates cost.
#[tactic(auto, using(deck_check::proofs::Firsts::first_none, deck_check::proofs::Firsts::kept_more_yes, deck_check::proofs::Firsts::kept_more_no))]
fn thermal_costs(alloc: Global, deck: &Deck) -> Result<Listed<ThermalCost>, OutOfMemory>
    ensures { IfOk result (λ ps. ps ≡ map (spec.thermal_cost (body_of deck.now)) (says.thermal_numbers (body_of deck.now))) }
{
    let mut candidates = Vec::new(alloc);
    for k in 0..THERMAL {
        if is_there(deck, Head::Thermal(k + 1)) {
            candidates.push(thermal_cost(deck, k + 1))?;
        }
    }
    Ok(Listed::new(candidates))
}

/// What the projects of a group cost.
#[tactic(auto, using(deck_check::proofs::Firsts::first_none, deck_check::proofs::Firsts::map_more))]
fn project_costs(alloc: Global, deck: &Deck, g: u64) -> Result<Listed<ProjectCost>, OutOfMemory>
    ensures { IfOk result (λ ps. ps ≡ map (spec.project_cost (body_of deck.now) g) (first (says.projects (body_of deck.now) g))) }
{
    let mut costs = Vec::new(alloc);
    for j in 0..projects(deck, g) {
        let head = Head::Project(g, j + 1);
        costs.push(ProjectCost {
            capacity: number(deck, head, 0),
            capdom: number(deck, head, 1),
            capfor: number(deck, head, 2),
            life: number(deck, head, 3),
        })?;
    }
    Ok(Listed::new(costs))
}

/// What the hydro groups cost.
#[tactic(auto, using(deck_check::proofs::Firsts::first_none, deck_check::proofs::Firsts::kept_more_yes, deck_check::proofs::Firsts::kept_more_no))]
fn group_costs(alloc: Global, deck: &Deck) -> Result<Listed<GroupCost>, OutOfMemory>
    ensures { IfOk result (λ gs. gs ≡ map (spec.group_cost (body_of deck.now)) (says.group_numbers (body_of deck.now))) }
{
    let mut groups = Vec::new(alloc);
    for g in 0..GROUPS {
        let head = Head::Hydro(g + 1);
        if is_there(deck, head) {
            groups.push(GroupCost {
                existing: number(deck, head, 0),
                greatest: number(deck, head, 1),
                fixed: number(deck, head, 2),
                projects: project_costs(alloc, deck, g + 1)?,
            })?;
        }
    }
    Ok(Listed::new(groups))
}

/// A rate in each currency.
fn rates(deck: &Deck, head: Head) -> Rates
    ensures { result ≡ spec.rates (body_of deck.now) head }
{
    Rates {
        domestic: number(deck, head, 0),
        foreign: number(deck, head, 1),
    }
}

/// The price of energy not served.
fn shortage(deck: &Deck) -> ShortagePrice
    ensures { result ≡ spec.shortage (body_of deck.now) }
{
    ShortagePrice {
        plain: number(deck, Head::Ens, 0),
        linear: number(deck, Head::EnsMore, 0),
        square: number(deck, Head::EnsMore, 1),
    }
}

/// The data of the costs, with a demand below 2^32 MWh in each year.
fn costs_of(alloc: Global, deck: &Deck) -> Result<CostData, OutOfMemory>
    requires { IsTyped deck.now }
    ensures value { IfOk result (λ costs. costs ≡ spec.costs (body_of deck.now)) }
    ensures small { IfOk result (λ costs. All (λ mwh. mwh < 2 ^ 32) costs.demand) }
{
    Ok(CostData {
        years: years(deck),
        version: version(deck),
        rates: rates(deck, Head::Rate),
        escalation: rates(deck, Head::Escalate),
        shortage: shortage(deck),
        weights: weights_of(alloc, deck)?,
        demand: demands(alloc, deck)?,
        plants: plant_costs(alloc, deck)?,
        thermal: thermal_costs(alloc, deck)?,
        groups: group_costs(alloc, deck)?,
    })
}

/// The economy of the deck's years.
pub fn economy_of(alloc: Global, deck: &Deck) -> Result<Economy, OutOfMemory>
    requires { IsTyped deck.now }
    ensures value { IfOk result (λ economy. economy ≡ spec.costs (body_of deck.now)) }
    ensures is_economy { IfOk result (λ economy. IsEconomy economy) }
{
    Ok(Economy::new(costs_of(alloc, deck)?))
}
