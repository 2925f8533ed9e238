//! The best ways to each configuration, year by year.
ghost use Rattle.std.specs.Prelude.{◌≡◌, ℕ, ◌+◌, ◌*◌, ◌^◌, ◌<◌, ◌≤◌, ◌++◌, [], ◌∷◌, IfOk, OnOk, IfSome, All, Contains, length, map, slice_index_or, Some, None};
ghost use Rattle.cost_terms.specs.CostData.{Fits};
ghost use Rattle.cost_terms.specs.Table.{IsEntry, IsTable};
ghost use Rattle.plan_program.specs.Plans.{entry_at, layer_at};
ghost use Rattle.plan_program.specs.Steps.{running};
ghost use Rattle.best_plans.specs.Offers.{AreLow, AreOffers, offer_at, ranked_at, reached_at};
ghost use Rattle.best_plans.specs.Reach.{AreAdditions, AreEntries, AreReached, AreWays, IsAddition, onward};

use crate::offers::{Offer, first_offers};
use crate::ranked::{Ranked, Reached};
use cost_terms::{CaseTable, Economy, Scored, build_cost, run_cost};
use plant_data::{Config, Listed};
use std::alloc::{AllocError, Global};

/// What the step from a configuration to an entry of the year adds, given what it costs to run the entry, or
/// none where a count falls.
fn addition(economy: &Economy, year: u64, before: &Config, entry: &Scored, ran: u64) -> Option<u64>
    requires first { 1 ≤ year }
    requires last { year ≤ economy.now.years }
    requires before { Fits economy.now before.now }
    requires entry { IsEntry economy.now entry.now }
    requires ran { ran ≡ running economy.now year entry.now.config entry.now.row }
    requires few { ran ≤ 10 ^ 16 }
    ensures value { IsAddition economy.now year before.now entry.now result }
    ensures small { IfSome result (λ cost. cost ≤ 2 * 10 ^ 16) }
{
    if !before.at_most(&entry.config) {
        return None;
    }
    let built = build_cost(economy, year, before, &entry.config);
    Some(built.net() + ran)
}

/// What the steps from all that is reached to an entry of the year add.
fn additions(
    alloc: Global,
    economy: &Economy,
    year: u64,
    reached: &[Reached],
    entry: &Scored,
) -> Result<Vec<Option<u64>>, AllocError>
    requires first { 1 ≤ year }
    requires last { year ≤ economy.now.years }
    requires fit { (i : ℕ) → i < length reached.now → Fits economy.now (reached_at reached.now i).config }
    requires entry { IsEntry economy.now entry.now }
    ensures value { IfOk result (λ added. AreAdditions economy.now year reached.now entry.now added.items) }
    ensures small { IfOk result (λ added. (i cost : ℕ) → slice_index_or added.items i None ≡ Some cost → cost ≤ 2 * 10 ^ 16) }
{
    let ran = run_cost(economy, year, &entry.config, &entry.row).total();
    let mut added = Vec::with_capacity(alloc, reached.len())?;
    for from in reached {
        added.push(addition(economy, year, &from.config, entry, ran))?;
    }
    Ok(added)
}

/// A way with more configurations at its end.
fn extended(alloc: Global, way: &Ranked, tail: &[Config], total: u64) -> Result<Ranked, AllocError>
    ensures { IfOk result (λ r. r ≡ record { configs = way.now.configs ++ tail.now; total = total }) }
{
    let mut configs = Vec::new(alloc);
    configs.extend_from_slice(way.configs.as_slice())?;
    configs.extend_from_slice(tail)?;
    Ok(Ranked {
        configs: Listed::new(configs),
        total,
    })
}

/// The ways that are offered, each with more configurations at its end.
pub fn onward_ways(
    alloc: Global,
    reached: &[Reached],
    offers: &[Offer],
    tail: &[Config],
) -> Result<Vec<Ranked>, AllocError>
    requires places { (i : ℕ) → i < length offers.now → (offer_at offers.now i).place < length reached.now }
    requires ranks { (i : ℕ) → i < length offers.now → (offer_at offers.now i).rank < length (reached_at reached.now (offer_at offers.now i).place).ways }
    ensures { IfOk result (λ ways. ways.items ≡ map (onward reached.now tail.now) offers.now) }
{
    let mut ways = Vec::with_capacity(alloc, offers.len())?;
    for offer in offers {
        let from = reached[offer.place].ways.as_slice();
        let way = extended(alloc, &from[offer.rank], tail, offer.cost)?;
        ways.push(way)?;
    }
    Ok(ways)
}

/// The k best ways to an entry of a year, counted from 0, by the ways to what is reached before it.
fn entry_ways(
    alloc: Global,
    table: &CaseTable,
    year: usize,
    reached: &[Reached],
    entry: &Scored,
    k: usize,
) -> Result<Listed<Ranked>, AllocError>
    requires year { year < length table.now.layers }
    requires entry { Contains (layer_at table.now year) entry.now }
    requires fits { IsEntry table.now.economy entry.now }
    requires reached { AreReached table.now k year reached.now }
    ensures value { IfOk result (λ ways. AreWays table.now k (year + 1) entry.now.config ways) }
    ensures low { IfOk result (λ ways. (i : ℕ) → (ranked_at ways i).total ≤ (year + 1) * (2 * 10 ^ 16)) }
{
    let added = additions(alloc, table.economy(), year as u64 + 1, reached, entry)?;
    let offers = first_offers(alloc, reached, &added, k)?;
    let tail = [entry.config];
    let ways = onward_ways(alloc, reached, &offers, &tail)?;
    Ok(Listed::new(ways))
}

/// What is reached after a year, counted from 0, by what is reached before it.
fn year_ways(
    alloc: Global,
    table: &CaseTable,
    year: usize,
    reached: &[Reached],
    k: usize,
) -> Result<Vec<Reached>, AllocError>
    requires year { year < length table.now.layers }
    requires reached { AreReached table.now k year reached.now }
    ensures entries { IfOk result (λ next. AreEntries table.now k year (length (layer_at table.now year)) next.items) }
    ensures valid { IsTable table.now }
{
    let layer = table.layers()[year].entries();
    let mut next = Vec::with_capacity(alloc, layer.len())?;
    for entry in layer {
        let ways = entry_ways(alloc, table, year, reached, entry, k)?;
        next.push(Reached {
            config: entry.config,
            ways,
        })?;
    }
    Ok(next)
}

/// Nothing built, before year 1.
fn start(alloc: Global, table: &CaseTable, k: usize) -> Result<Vec<Reached>, AllocError>
    requires { 1 ≤ k }
    ensures { IfOk result (λ reached. AreReached table.now k 0 reached.items) }
{
    let none = Ranked {
        configs: Listed::new(Vec::new(alloc)),
        total: 0,
    };
    let mut ways = Vec::new(alloc);
    ways.push(none)?;
    let mut reached = Vec::new(alloc);
    reached.push(Reached {
        config: table.economy().nothing_built(),
        ways: Listed::new(ways),
    })?;
    Ok(reached)
}

/// The k best ways to each configuration of the last year.
pub fn last_ways(alloc: Global, table: &CaseTable, k: usize) -> Result<Vec<Reached>, AllocError>
    requires { 1 ≤ k }
    ensures reached { IfOk result (λ reached. AreReached table.now k (length table.now.layers) reached.items) }
    ensures valid { IfOk result (λ _. IsTable table.now) }
{
    let mut reached = start(alloc, table, k)?;
    for year in 0..table.layers().len() {
        reached = year_ways(alloc, table, year, &reached, k)?;
    }
    Ok(reached)
}
