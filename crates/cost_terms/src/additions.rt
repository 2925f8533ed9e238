//! What is added in a year, and its sums.
ghost use Rattle.std.specs.Prelude.{◌≡◌, ◌+◌, ◌-◌, ◌*◌, ◌≤◌, List, [], ◌∷◌, length, map, sum_by};
ghost use Rattle.std.specs.List.{flat_map};
ghost use Rattle.plant_data.specs.Configs.{IsAtMost};
ghost use Rattle.wasp_fixed.specs.declared.numbers.TheConstants.{ONE};
ghost use Rattle.cost_terms.specs.Cost.{added_projects, added_units, domestic, foreign, group_steps, item_salvage, items, thermal_steps};
ghost use Rattle.cost_terms.specs.CostData.{Fits, IsEconomy, IsGroupCost, IsThermalCost};
ghost use Rattle.cost_terms.specs.Totals.{Adds, IsHorizon, IsItem, IsSum, IsWithin, nothing};

use crate::prices::{CostData, GroupCost, ThermalCost};
use plant_data::Config;
use wasp_fixed::ONE;

/// An addition of one kind.
#[derive(Clone, Copy, Debug)]
pub struct Item {
    /// The capacity, in MW.
    pub mw: u64,
    /// The domestic part of the capital cost, in dollars per kW.
    pub capdom: u64,
    /// The foreign part of the capital cost, in dollars per kW.
    pub capfor: u64,
    /// The fuel inventory, in dollars per kW; a hydro project has none.
    pub stock: u64,
    /// The life, in years.
    pub life: u64,
}

/// The horizon as a year sees it.
#[derive(Clone, Copy, Debug)]
pub struct Horizon {
    /// The years from the year's beginning to the end of the last year.
    pub ahead: u64,
    /// The worth of domestic money at the horizon, in parts of `ONE`.
    pub domestic: u64,
    /// The same of foreign money.
    pub foreign: u64,
}

/// Sums over the items that are added.
#[derive(Clone, Copy, Debug)]
pub struct Totals {
    /// The capacity, in MW.
    pub mw: u64,
    /// The investment in domestic currency, in dollars of the year.
    pub domestic: u64,
    /// The investment in foreign currency, in dollars of the year.
    pub foreign: u64,
    /// The fuel inventory, in dollars of the year.
    pub inventory: u64,
    /// The salvage, in dollars of present worth.
    pub salvage: u64,
}

/// The salvage of an item, 0 where its life ends by the horizon.
#[tactic(auto, using(crate::proofs::Amounts::worth_most, crate::proofs::Amounts::part_le))]
fn salvage_of(item: &Item, horizon: &Horizon) -> u64
    requires item { IsItem item.now }
    requires horizon { IsHorizon horizon.now }
    ensures value { result ≡ item_salvage horizon.now item.now }
    ensures within { result * ONE ≤ domestic item.now * horizon.now.domestic + foreign item.now * horizon.now.foreign }
{
    if item.life <= horizon.ahead {
        return 0;
    }
    let kw = item.mw * 1000;
    let worth = u128::from(kw * item.capdom) * u128::from(horizon.domestic)
        + u128::from(kw * item.capfor) * u128::from(horizon.foreign);
    (worth * u128::from(item.life - horizon.ahead) / u128::from(item.life * ONE)) as u64
}

/// The salvage of so many units of a thermal candidate.
pub fn units_salvage(plant: &ThermalCost, count: u64, horizon: &Horizon) -> u64
    requires plant { IsThermalCost plant.now }
    requires count { count ≤ 128 }
    requires horizon { IsHorizon horizon.now }
    ensures { result ≡ item_salvage horizon.now (added_units plant.now count) }
{
    let item = Item {
        mw: count * plant.full,
        capdom: plant.capdom,
        capfor: plant.capfor,
        stock: plant.stock,
        life: plant.life,
    };
    salvage_of(&item, horizon)
}

/// Nothing is added.
pub const NOTHING: Totals = Totals {
    mw: 0,
    domestic: 0,
    foreign: 0,
    inventory: 0,
    salvage: 0,
};

impl Totals {
    /// The sums with one more item.
    fn add(&self, item: &Item, horizon: &Horizon) -> Totals
        requires item { IsItem item.now }
        requires horizon { IsHorizon horizon.now }
        requires within { IsWithin horizon.now self.now }
        requires few { self.now.mw ≤ 40000000 }
        ensures adds { Adds horizon.now self.now (item.now ∷ []) result }
        ensures within { IsWithin horizon.now result }
        ensures mw { result.mw ≡ self.now.mw + item.now.mw }
    {
        self.add_item(item, salvage_of(item, horizon), horizon)
    }

    /// The sums with one more item, whose salvage is known.
    #[tactic(auto, using(crate::proofs::Amounts::per_mw, crate::proofs::Amounts::worth_most))]
    fn add_item(&self, item: &Item, salvage: u64, horizon: &Horizon) -> Totals
        requires item { IsItem item.now }
        requires horizon { IsHorizon horizon.now }
        requires salvage { salvage ≡ item_salvage horizon.now item.now }
        requires regained { salvage * ONE ≤ domestic item.now * horizon.now.domestic + foreign item.now * horizon.now.foreign }
        requires within { IsWithin horizon.now self.now }
        requires few { self.now.mw ≤ 40000000 }
        ensures adds { Adds horizon.now self.now (item.now ∷ []) result }
        ensures within { IsWithin horizon.now result }
        ensures mw { result.mw ≡ self.now.mw + item.now.mw }
    {
        let kw = item.mw * 1000;
        Totals {
            mw: self.mw + item.mw,
            domestic: self.domestic + kw * item.capdom,
            foreign: self.foreign + kw * item.capfor,
            inventory: self.inventory + kw * item.stock,
            salvage: self.salvage + salvage,
        }
    }

    /// The sums with so many units of a thermal candidate, whose salvage is known.
    pub fn add_salvaged(
        &self,
        plant: &ThermalCost,
        count: u64,
        salvage: u64,
        horizon: &Horizon,
    ) -> Totals
        requires plant { IsThermalCost plant.now }
        requires count { count ≤ 128 }
        requires horizon { IsHorizon horizon.now }
        requires salvage { salvage ≡ item_salvage horizon.now (added_units plant.now count) }
        requires within { IsWithin horizon.now self.now }
        requires few { self.now.mw ≤ 40000000 }
        ensures adds { Adds horizon.now self.now (added_units plant.now count ∷ []) result }
        ensures within { IsWithin horizon.now result }
        ensures mw { result.mw ≡ self.now.mw + count * plant.now.full }
    {
        let item = Item {
            mw: count * plant.full,
            capdom: plant.capdom,
            capfor: plant.capfor,
            stock: plant.stock,
            life: plant.life,
        };
        self.add_item(&item, salvage, horizon)
    }

    /// The sums of both.
    pub fn plus(&self, other: &Totals, horizon: &Horizon) -> Totals
        requires horizon { IsHorizon horizon.now }
        requires within { IsWithin horizon.now self.now }
        requires others { IsWithin horizon.now other.now }
        requires few { self.now.mw ≤ 40000000 }
        requires fewer { other.now.mw ≤ 300000 }
        ensures sums { IsSum self.now other.now result }
        ensures within { IsWithin horizon.now result }
        ensures mw { result.mw ≡ self.now.mw + other.now.mw }
    {
        Totals {
            mw: self.mw + other.mw,
            domestic: self.domestic + other.domestic,
            foreign: self.foreign + other.foreign,
            inventory: self.inventory + other.inventory,
            salvage: self.salvage + other.salvage,
        }
    }

    /// The sums with so many units of a thermal candidate.
    fn add_units(&self, plant: &ThermalCost, count: u64, horizon: &Horizon) -> Totals
        requires plant { IsThermalCost plant.now }
        requires count { count ≤ 128 }
        requires horizon { IsHorizon horizon.now }
        requires within { IsWithin horizon.now self.now }
        requires few { self.now.mw ≤ 40000000 }
        ensures adds { Adds horizon.now self.now (added_units plant.now count ∷ []) result }
        ensures within { IsWithin horizon.now result }
        ensures mw { result.mw ≡ self.now.mw + count * plant.now.full }
    {
        if count == 0 {
            return *self;
        }
        let item = Item {
            mw: count * plant.full,
            capdom: plant.capdom,
            capfor: plant.capfor,
            stock: plant.stock,
            life: plant.life,
        };
        self.add(&item, horizon)
    }

    /// The sums with the projects of a group that a count from one to another adds.
    pub fn add_projects(&self, group: &GroupCost, from: u64, to: u64, horizon: &Horizon) -> Totals
        requires group { IsGroupCost group.now }
        requires rises { from ≤ to }
        requires most { to ≤ group.now.greatest }
        requires horizon { IsHorizon horizon.now }
        requires within { IsWithin horizon.now self.now }
        requires few { self.now.mw ≤ 39000000 }
        ensures adds { Adds horizon.now self.now (added_projects group.now from to) result }
        ensures within { IsWithin horizon.now result }
        ensures mw { result.mw ≤ self.now.mw + 300000 }
        ensures each { result.mw ≤ self.now.mw + 20000 * (to - from) }
    {
        let projects = group.projects.as_slice();
        let first = (group.existing + from) as usize;
        let mut totals = *self;
        for j in 0..(to - from) as usize {
            let project = projects[first + j];
            let item = Item {
                mw: project.capacity,
                capdom: project.capdom,
                capfor: project.capfor,
                stock: 0,
                life: project.life,
            };
            totals = totals.add(&item, horizon);
        }
        totals
    }
}

/// The sums over the units of thermal candidates that a year adds.
fn thermal_totals(costs: &CostData, before: &Config, after: &Config, horizon: &Horizon) -> Totals
    requires costs { IsEconomy costs.now }
    requires before { Fits costs.now before.now }
    requires after { Fits costs.now after.now }
    requires grows { IsAtMost before.now after.now }
    requires horizon { IsHorizon horizon.now }
    ensures adds { Adds horizon.now nothing (map (λ s. added_units s.0 (s.1.1 - s.1.0)) (thermal_steps costs.now before.now after.now)) result }
    ensures within { IsWithin horizon.now result }
    ensures mw { result.mw ≤ 30720000 }
{
    let thermal = costs.thermal.as_slice();
    let mut totals = Totals {
        mw: 0,
        domestic: 0,
        foreign: 0,
        inventory: 0,
        salvage: 0,
    };
    for k in 0..thermal.len() {
        totals = totals.add_units(&thermal[k], after.get(k) - before.get(k), horizon);
    }
    totals
}

/// The sums with the projects that a year adds.
fn group_totals(
    costs: &CostData,
    before: &Config,
    after: &Config,
    horizon: &Horizon,
    thermal: Totals,
) -> Totals
    requires costs { IsEconomy costs.now }
    requires before { Fits costs.now before.now }
    requires after { Fits costs.now after.now }
    requires grows { IsAtMost before.now after.now }
    requires horizon { IsHorizon horizon.now }
    requires within { IsWithin horizon.now thermal }
    requires few { thermal.mw ≤ 30720000 }
    ensures adds { Adds horizon.now thermal (flat_map (λ s. added_projects s.0 s.1.0 s.1.1) (group_steps costs.now before.now after.now)) result }
    ensures within { IsWithin horizon.now result }
    ensures mw { result.mw ≤ 40000000 }
{
    let groups = costs.groups.as_slice();
    let first = costs.thermal.as_slice().len();
    let mut totals = thermal;
    for k in 0..groups.len() {
        totals = totals.add_projects(
            &groups[k],
            before.get(first + k),
            after.get(first + k),
            horizon,
        );
    }
    totals
}

/// The sums over all that a year adds.
#[tactic(auto, using(crate::proofs::Steps::adds_more))]
pub fn year_totals(costs: &CostData, before: &Config, after: &Config, horizon: &Horizon) -> Totals
    requires costs { IsEconomy costs.now }
    requires before { Fits costs.now before.now }
    requires after { Fits costs.now after.now }
    requires grows { IsAtMost before.now after.now }
    requires horizon { IsHorizon horizon.now }
    ensures adds { Adds horizon.now nothing (items costs.now before.now after.now) result }
    ensures within { IsWithin horizon.now result }
    ensures mw { result.mw ≤ 40000000 }
{
    let thermal = thermal_totals(costs, before, after, horizon);
    group_totals(costs, before, after, horizon, thermal)
}
