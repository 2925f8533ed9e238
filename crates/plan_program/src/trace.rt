//! The chosen plan, from its last year back.
ghost use Rattle.std.specs.Prelude.{◌≡◌, ℕ, ◌+◌, ◌-◌, ◌^◌, ◌<◌, ◌≤◌, ◌↔◌, [], IfSome, IfOk, OnOk, IsTrue, All, length, slice_index_or, Some, None, Option};
ghost use Rattle.cost_terms.specs.Table.{IsEntry, IsTable, Rises};
ghost use Rattle.plan_program.specs.CostToCome.{come_at};
ghost use Rattle.plan_program.specs.Plans.{entry_at, layer_at};
ghost use Rattle.plan_program.specs.Steps.{AreWayCosts, HasLead, IsBefore, LeadsTo, running};
ghost use Rattle.plan_program.specs.Ways.{TellsBest};

use cost_terms::{CaseTable, Economy, Scored, build_cost, run_cost};
use plant_data::{Config, Listed};
use std::alloc::AllocError;

/// Whether an entry with its cost-to-come leads to an entry of the year at its cost, given what it costs to
/// run that entry.
fn leads_to(
    economy: &Economy,
    year: u64,
    from: &Scored,
    come: Option<u64>,
    entry: &Scored,
    ran: u64,
    cost: u64,
) -> bool
    requires first { 1 ≤ year }
    requires last { year ≤ economy.now.years }
    requires from { IsEntry economy.now from.now }
    requires entry { IsEntry economy.now entry.now }
    requires small { IfSome come (λ u. u < 10 ^ 18) }
    requires ran { ran ≡ running economy.now year entry.now.config entry.now.row }
    requires few { ran ≤ 10 ^ 16 }
    ensures { IsTrue result ↔ LeadsTo economy.now year from.now come entry.now cost }
{
    let Some(before) = come else {
        return false;
    };
    if before + ran > cost || !from.config.at_most(&entry.config) {
        return false;
    }
    let built = build_cost(economy, year, &from.config, &entry.config);
    before + built.net() + ran == cost
}

/// The place of the first entry of the year before that leads to an entry at its cost-to-come.
fn predecessor(
    economy: &Economy,
    year: u64,
    layer: &[Scored],
    come: &[Option<u64>],
    entry: &Scored,
    cost: u64,
) -> usize
    requires first { 1 ≤ year }
    requires last { year ≤ economy.now.years }
    requires entries { All (IsEntry economy.now) layer.now }
    requires entry { IsEntry economy.now entry.now }
    requires long { length come.now ≡ length layer.now }
    requires small { (i u : ℕ) → slice_index_or come.now i None ≡ Some u → u < 10 ^ 18 }
    requires some { HasLead economy.now year layer.now come.now entry.now cost }
    ensures within { result < length layer.now }
    ensures leads { LeadsTo economy.now year (entry_at layer.now result) (slice_index_or come.now result None) entry.now cost }
    ensures first { (i : ℕ) → i < result → LeadsTo economy.now year (entry_at layer.now i) (slice_index_or come.now i None) entry.now cost → ⊥ }
{
    let ran = run_cost(economy, year, &entry.config, &entry.row).total();
    for i in 0..layer.len() {
        if leads_to(economy, year, &layer[i], come[i], entry, ran, cost) {
            return i;
        }
    }
    unreachable!()
}

/// The layer of a year, counted from 0.
pub fn layer_of(table: &CaseTable, year: usize) -> &[Scored]
    requires { year < length table.now.layers }
    ensures value { result.now ≡ layer_at table.now year }
    ensures entries { All (IsEntry table.now.economy) result.now }
    ensures rises { Rises result.now }
    ensures valid { IsTable table.now }
{
    table.layers()[year].entries()
}

/// The costs-to-come of a year, counted from 0.
pub fn costs_of(come: &[Listed<Option<u64>>], year: usize) -> &[Option<u64>]
    requires { year < length come.now }
    ensures { result.now ≡ slice_index_or come.now year [] }
{
    come[year].as_slice()
}

/// The place of the entry from which the best plan comes to the entry at a place of a year's layer, years and
/// places counted from 0.
fn find_before(table: &CaseTable, come: &[Listed<Option<u64>>], year: usize, place: usize) -> usize
    requires some_year { 1 ≤ year }
    requires year { year < length table.now.layers }
    requires place { place < length (layer_at table.now year) }
    requires come { AreWayCosts table.now (length table.now.layers) come.now }
    requires some { come_at come.now year place ≡ None → ⊥ }
    ensures { IsBefore table.now come.now year place result }
{
    let entry = &layer_of(table, year)[place];
    let Some(cost) = costs_of(come, year)[place] else {
        unreachable!()
    };
    let layer = layer_of(table, year - 1);
    let before = costs_of(come, year - 1);
    predecessor(table.economy(), year as u64 + 1, layer, before, entry, cost)
}

#[tactic(auto, using(crate::proofs::Best::told_first, crate::proofs::Best::before_some))]
/// Appends the configurations of the best plan that ends in the entry at a place of a year's layer, both
/// counted from 0: the one of least cost, and of these the least by the configurations from the last back.
pub fn push_best(
    table: &CaseTable,
    come: &[Listed<Option<u64>>],
    year: usize,
    place: usize,
    configs: &mut Vec<Config>,
) -> Result<(), AllocError>
    requires year { year < length table.now.layers }
    requires place { place < length (layer_at table.now year) }
    requires come { AreWayCosts table.now (length table.now.layers) come.now }
    requires some { come_at come.now year place ≡ None → ⊥ }
    requires empty { configs.old.items ≡ [] }
    ensures { OnOk result (TellsBest table.now year (entry_at (layer_at table.now year) place) configs.new.items) }
{
    let entry = layer_of(table, year)[place];
    if year == 0 {
        configs.push(entry.config)?;
        return Ok(());
    }
    let before = find_before(table, come, year, place);
    push_best(table, come, year - 1, before, configs)?;
    configs.push(entry.config)?;
    Ok(())
}
