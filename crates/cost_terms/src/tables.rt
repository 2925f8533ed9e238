//! The tables of a year, from which a step's cost is a few additions.
ghost use Rattle.std.specs.Prelude.{◌≡◌, ◌+◌, ◌-◌, ◌*◌, ◌/◌, ◌^◌, ◌≤◌, IfOk, length, map};
ghost use Rattle.std.specs.List.{flat_map};
ghost use Rattle.plant_data.specs.Configs.{IsAtMost};
ghost use Rattle.wasp_fixed.specs.Discounts.{end_factor};
ghost use Rattle.wasp_fixed.specs.declared.numbers.TheConstants.{ONE};
ghost use Rattle.cost_terms.specs.Cost.{added_projects, added_units, group_steps, horizon, item_salvage, items, nothing_built, thermal_steps};
ghost use Rattle.cost_terms.specs.CostData.{Fits, IsEconomy, IsGroupCost, IsThermalCost};
ghost use Rattle.cost_terms.specs.StepTable.{AreProjectRows, AreProjectSums, AreUnitRows, AreUnitSalvages, IsStanding, IsStepTable, net_build, units_salvage_of};
ghost use Rattle.cost_terms.specs.Totals.{Adds, IsHorizon, IsWithin, nothing};

use crate::additions::{Horizon, NOTHING, Totals, units_salvage};
use crate::economy::Economy;
use crate::prices::{CostData, GroupCost, ThermalCost};
use crate::terms::horizon_of;
use plant_data::{Config, Listed};
use std::alloc::{AllocError, Global};
use wasp_fixed::ONE;

/// The tables of a year of an economy.
///
/// They are made once, in the time of one salvage for each unit and project; with them a step takes an addition
/// for each thermal candidate and two divisions.
#[derive(Debug, Drop)]
pub struct StepTable {
    /// The year, counted from 1.
    pub year: u64,
    /// The horizon as the year sees it.
    pub horizon: Horizon,
    /// The worth of domestic money at the beginning of the year, in parts of `ONE`.
    pub worth: u64,
    /// The same of foreign money.
    pub abroad: u64,
    /// For each thermal candidate the salvage of each number of its units, in dollars of present worth.
    pub units: Listed<Listed<u64>>,
    /// For each group the sums over each number of its candidate projects.
    pub projects: Listed<Listed<Totals>>,
}

/// A configuration with the sums over its additions from nothing in a year.
#[derive(Clone, Copy, Debug)]
pub struct Standing {
    /// The configuration.
    pub config: Config,
    /// The investment in domestic currency, in dollars of the year.
    pub domestic: u64,
    /// The investment in foreign currency, in dollars of the year.
    pub foreign: u64,
    /// The fuel inventory, in dollars of the year.
    pub inventory: u64,
    /// The salvage of the hydro projects, in dollars of present worth.
    pub projects: u64,
    /// What all costs if it is built in the year, net of salvage, in dollars of present worth.
    pub net: u64,
}

/// Two amounts, each times a factor of at most `ONE`, in parts of `ONE`: one floor for their sum. What an amount
/// has below `ONE` is taken apart, so that no division is longer than 64 bits.
#[tactic(auto, using(crate::proofs::Apart::worth_apart, crate::proofs::Apart::whole_part, crate::proofs::Apart::rest_part))]
fn both_in_parts(domestic: u64, factor: u64, foreign: u64, factor_abroad: u64) -> u64
    requires domestic { domestic ≤ 2000000000000000 }
    requires factor { factor ≤ ONE }
    requires foreign { foreign ≤ 2000000000000000 }
    requires abroad { factor_abroad ≤ ONE }
    ensures { result ≡ (domestic * factor + foreign * factor_abroad) / ONE }
{
    let whole = domestic / ONE * factor + foreign / ONE * factor_abroad;
    whole + (domestic % ONE * factor + foreign % ONE * factor_abroad) / ONE
}

/// The salvage of each number of a candidate's units.
fn unit_salvages(
    alloc: Global,
    plant: &ThermalCost,
    horizon: &Horizon,
) -> Result<Vec<u64>, AllocError>
    requires plant { IsThermalCost plant.now }
    requires horizon { IsHorizon horizon.now }
    ensures { IfOk result (λ row. AreUnitSalvages horizon.now plant.now row.items) }
{
    let count = plant.greatest + 1;
    let mut row = Vec::with_capacity(alloc, count as usize)?;
    for n in 0..count {
        row.push(units_salvage(plant, n, horizon))?;
    }
    Ok(row)
}

/// The same for each thermal candidate.
fn unit_rows(
    alloc: Global,
    costs: &CostData,
    horizon: &Horizon,
) -> Result<Vec<Listed<u64>>, AllocError>
    requires costs { IsEconomy costs.now }
    requires horizon { IsHorizon horizon.now }
    ensures { IfOk result (λ rows. AreUnitRows horizon.now costs.now.thermal rows.items) }
{
    let thermal = costs.thermal.as_slice();
    let mut rows = Vec::with_capacity(alloc, thermal.len())?;
    for k in 0..thermal.len() {
        rows.push(Listed::new(unit_salvages(alloc, &thermal[k], horizon)?))?;
    }
    Ok(rows)
}

/// The sums over each number of a group's candidate projects.
fn project_sums(
    alloc: Global,
    group: &GroupCost,
    horizon: &Horizon,
) -> Result<Vec<Totals>, AllocError>
    requires group { IsGroupCost group.now }
    requires horizon { IsHorizon horizon.now }
    ensures { IfOk result (λ row. AreProjectSums horizon.now group.now row.items) }
{
    let mut row = Vec::with_capacity(alloc, group.greatest as usize + 1)?;
    let mut sums = NOTHING;
    row.push(sums)?;
    for n in 0..group.greatest {
        sums = sums.add_projects(group, n, n + 1, horizon);
        row.push(sums)?;
    }
    Ok(row)
}

/// The same for each group.
fn project_rows(
    alloc: Global,
    costs: &CostData,
    horizon: &Horizon,
) -> Result<Vec<Listed<Totals>>, AllocError>
    requires costs { IsEconomy costs.now }
    requires horizon { IsHorizon horizon.now }
    ensures { IfOk result (λ rows. AreProjectRows horizon.now costs.now.groups rows.items) }
{
    let groups = costs.groups.as_slice();
    let mut rows = Vec::with_capacity(alloc, groups.len())?;
    for k in 0..groups.len() {
        rows.push(Listed::new(project_sums(alloc, &groups[k], horizon)?))?;
    }
    Ok(rows)
}

/// The sums over a configuration's units of thermal candidates.
fn thermal_sums(costs: &CostData, table: &StepTable, config: &Config) -> Totals
    requires costs { IsEconomy costs.now }
    requires fits { Fits costs.now config.now }
    requires horizon { IsHorizon table.now.horizon }
    requires units { AreUnitRows table.now.horizon costs.now.thermal table.now.units }
    ensures adds { Adds table.now.horizon nothing (map (λ s. added_units s.0 (s.1.1 - s.1.0)) (thermal_steps costs.now (nothing_built costs.now) config.now)) result }
    ensures within { IsWithin table.now.horizon result }
    ensures mw { result.mw ≤ 30720000 }
{
    let thermal = costs.thermal.as_slice();
    let rows = table.units.as_slice();
    let mut totals = NOTHING;
    for k in 0..thermal.len() {
        let count = config.get(k);
        let salvage = rows[k].as_slice()[count as usize];
        totals = totals.add_salvaged(&thermal[k], count, salvage, &table.horizon);
    }
    totals
}

/// The sums with those over a configuration's projects.
fn project_totals(costs: &CostData, table: &StepTable, config: &Config, thermal: Totals) -> Totals
    requires costs { IsEconomy costs.now }
    requires fits { Fits costs.now config.now }
    requires horizon { IsHorizon table.now.horizon }
    requires projects { AreProjectRows table.now.horizon costs.now.groups table.now.projects }
    requires within { IsWithin table.now.horizon thermal }
    requires few { thermal.mw ≤ 30720000 }
    ensures adds { Adds table.now.horizon thermal (flat_map (λ s. added_projects s.0 s.1.0 s.1.1) (group_steps costs.now (nothing_built costs.now) config.now)) result }
    ensures within { IsWithin table.now.horizon result }
    ensures mw { result.mw ≤ 40000000 }
{
    let first = costs.thermal.as_slice().len();
    let rows = table.projects.as_slice();
    let mut totals = thermal;
    for k in 0..rows.len() {
        totals = totals.plus(
            &rows[k].as_slice()[config.get(first + k) as usize],
            &table.horizon,
        );
    }
    totals
}

/// The salvage of the units of thermal candidates that a step adds.
fn thermal_salvage(costs: &CostData, table: &StepTable, before: &Config, after: &Config) -> u64
    requires costs { IsEconomy costs.now }
    requires before { Fits costs.now before.now }
    requires after { Fits costs.now after.now }
    requires grows { IsAtMost before.now after.now }
    requires horizon { IsHorizon table.now.horizon }
    requires units { AreUnitRows table.now.horizon costs.now.thermal table.now.units }
    ensures value { result ≡ units_salvage_of table.now.horizon costs.now before.now after.now }
{
    let rows = table.units.as_slice();
    let mut total = 0;
    for k in 0..rows.len() {
        total += rows[k].as_slice()[(after.get(k) - before.get(k)) as usize];
    }
    total
}

impl StepTable {
    /// The tables of a year, counted from 1.
    pub fn new(alloc: Global, economy: &Economy, year: u64) -> Result<StepTable, AllocError>
        requires first { 1 ≤ year }
        requires last { year ≤ economy.now.years }
        ensures table { IfOk result (λ t. IsStepTable economy.now t) }
        ensures year { IfOk result (λ t. t.year ≡ year) }
    {
        let costs = economy.costs();
        let factors = economy.factors();
        let horizon = horizon_of(costs, factors, year);
        let units = unit_rows(alloc, costs, &horizon)?;
        let projects = project_rows(alloc, costs, &horizon)?;
        let now = (year - 1) as usize;
        Ok(StepTable {
            year,
            horizon,
            worth: factors.end_domestic[now],
            abroad: factors.end_foreign[now],
            units: Listed::new(units),
            projects: Listed::new(projects),
        })
    }

    /// Sums in dollars of the year in present worth, net of salvage: one floor for the investment, and one for
    /// the fuel inventory.
    #[tactic(auto, using(crate::proofs::TableSteps::invested_most, crate::proofs::TableSteps::stocked_most))]
    fn net(&self, domestic: u64, foreign: u64, inventory: u64, salvage: u64) -> u64
        requires worth { self.now.worth ≤ ONE }
        requires abroad { self.now.abroad ≤ ONE }
        requires falls { self.now.horizon.domestic ≤ self.now.worth }
        requires domestic { domestic ≤ 2000000000000000 }
        requires foreign { foreign ≤ 2000000000000000 }
        requires inventory { inventory ≤ 400000000000000 }
        requires regained { salvage ≤ (domestic * self.now.worth + foreign * self.now.abroad) / ONE }
        ensures value { result ≡ (domestic * self.now.worth + foreign * self.now.abroad) / ONE - salvage + inventory * (self.now.worth - self.now.horizon.domestic) / ONE }
        ensures small { result ≤ 10 ^ 16 }
    {
        let built = both_in_parts(domestic, self.worth, foreign, self.abroad);
        built - salvage + both_in_parts(inventory, self.worth - self.horizon.domestic, 0, 0)
    }

    /// A configuration with its sums.
    pub fn standing(&self, economy: &Economy, config: &Config) -> Standing
        requires table { IsStepTable economy.now self.now }
        requires fits { Fits economy.now config.now }
        ensures config { result.config ≡ config.now }
        ensures standing { IsStanding economy.now self.now.year result }
    {
        let costs = economy.costs();
        let thermal = thermal_sums(costs, self, config);
        let totals = project_totals(costs, self, config, thermal);
        let net = self.net(
            totals.domestic,
            totals.foreign,
            totals.inventory,
            totals.salvage,
        );
        Standing {
            config: *config,
            domestic: totals.domestic,
            foreign: totals.foreign,
            inventory: totals.inventory,
            projects: totals.salvage - thermal.salvage,
            net,
        }
    }

    /// What the additions of a step cost: the investment less salvage, with the fuel inventory, as `Built::net`.
    pub fn net_build(&self, economy: &Economy, before: &Standing, after: &Standing) -> u64
        requires table { IsStepTable economy.now self.now }
        requires before { IsStanding economy.now self.now.year before.now }
        requires after { IsStanding economy.now self.now.year after.now }
        requires grows { IsAtMost before.now.config after.now.config }
        ensures value { result ≡ net_build economy.now self.now.year before.now.config after.now.config }
        ensures small { result ≤ 10 ^ 16 }
    {
        let units = thermal_salvage(economy.costs(), self, &before.config, &after.config);
        self.net(
            after.domestic - before.domestic,
            after.foreign - before.foreign,
            after.inventory - before.inventory,
            units + (after.projects - before.projects),
        )
    }
}
