//! The terms of a year's cost.
ghost use Rattle.std.specs.Prelude.{◌≡◌, ◌+◌, ◌-◌, ◌*◌, ◌/◌, ◌^◌, ◌<◌, ◌≤◌};
ghost use Rattle.plant_data.specs.Configs.{IsAtMost};
ghost use Rattle.plant_data.specs.Rows.{IsRow};
ghost use Rattle.cost_terms.specs.Cost.{SalvageIsWithinBuild, build, fuel, horizon, salvage, step_cost, stock, unserved, upkeep};
ghost use Rattle.cost_terms.specs.CostData.{Fits, IsEconomy};
ghost use Rattle.cost_terms.specs.Factors.{AreFactors};
ghost use Rattle.cost_terms.specs.Table.{IsEntry};
ghost use Rattle.cost_terms.specs.Totals.{IsHorizon};

use crate::additions::{Horizon, year_totals};
use crate::economy::Economy;
use crate::entries::Scored;
use crate::factors::Factors;
use crate::prices::CostData;
use crate::running::{fixed_of, unserved_cents};
use plant_data::{Config, Row};
use wasp_fixed::{ONE, mul_div_floor};

/// What the additions of a year cost, in dollars of present worth at the beginning of year 1.
#[derive(Clone, Copy, Debug, PartialEq, Eq)]
pub struct Built {
    /// The investment.
    pub build: u64,
    /// The worth of what outlives the horizon, at most the investment.
    pub salvage: u64,
    /// The fuel inventory, less what comes back at the horizon.
    pub stock: u64,
}

/// What running a configuration for a year costs, in dollars of present worth at the beginning of year 1.
#[derive(Clone, Copy, Debug, PartialEq, Eq)]
pub struct Ran {
    /// Fuel in both currencies.
    pub fuel: u64,
    /// Operation and maintenance, fixed and variable.
    pub upkeep: u64,
    /// Energy not served.
    pub unserved: u64,
}

impl Built {
    /// The investment less salvage, with the fuel inventory.
    pub fn net(&self) -> u64
        requires salvage { self.now.salvage ≤ self.now.build }
        requires fits { self.now.build + self.now.stock < 2 ^ 64 }
        ensures { result ≡ self.now.build - self.now.salvage + self.now.stock }
    {
        self.build - self.salvage + self.stock
    }
}

impl Ran {
    /// All of it.
    pub fn total(&self) -> u64
        requires { self.now.fuel + self.now.upkeep + self.now.unserved < 2 ^ 64 }
        ensures { result ≡ self.now.fuel + self.now.upkeep + self.now.unserved }
    {
        self.fuel + self.upkeep + self.unserved
    }
}

/// Two amounts, each times a factor, in parts of `whole`: one floor for their sum.
fn both_worth(domestic: u64, factor: u64, foreign: u64, factor_abroad: u64, whole: u64) -> u64
    requires whole { 1 ≤ whole }
    requires fits { (domestic * factor + foreign * factor_abroad) / whole < 2 ^ 64 }
    requires room { domestic * factor + foreign * factor_abroad < 2 ^ 128 }
    ensures { result ≡ (domestic * factor + foreign * factor_abroad) / whole }
{
    let sum = u128::from(domestic) * u128::from(factor)
        + u128::from(foreign) * u128::from(factor_abroad);
    (sum / u128::from(whole)) as u64
}

/// The horizon as a year sees it.
pub fn horizon_of(costs: &CostData, factors: &Factors, year: u64) -> Horizon
    requires years { costs.now.years ≤ 30 }
    requires last { year ≤ costs.now.years }
    requires factors { AreFactors costs.now factors.now }
    ensures value { result ≡ horizon costs.now year }
    ensures worth { IsHorizon result }
{
    let end = costs.years as usize;
    Horizon {
        ahead: costs.years - year + 1,
        domestic: factors.end_domestic[end],
        foreign: factors.end_foreign[end],
    }
}

/// The terms of the additions of a year.
fn build_terms(
    costs: &CostData,
    factors: &Factors,
    year: u64,
    before: &Config,
    after: &Config,
) -> Built
    requires costs { IsEconomy costs.now }
    requires factors { AreFactors costs.now factors.now }
    requires first { 1 ≤ year }
    requires last { year ≤ costs.now.years }
    requires before { Fits costs.now before.now }
    requires after { Fits costs.now after.now }
    requires grows { IsAtMost before.now after.now }
    ensures build { result.build ≡ build costs.now year before.now after.now }
    ensures salvage { result.salvage ≡ salvage costs.now year before.now after.now }
    ensures stock { result.stock ≡ stock costs.now year before.now after.now }
    ensures regained { result.salvage ≤ result.build }
    ensures small { result.build + result.stock ≤ 10 ^ 16 }
{
    let horizon = horizon_of(costs, factors, year);
    let totals = year_totals(costs, before, after, &horizon);
    let now = (year - 1) as usize;
    let worth = factors.end_domestic[now];
    let abroad = factors.end_foreign[now];
    Built {
        build: both_worth(totals.domestic, worth, totals.foreign, abroad, ONE),
        salvage: totals.salvage,
        stock: mul_div_floor(totals.inventory, worth - horizon.domestic, ONE),
    }
}

/// The terms of running a configuration for a year.
fn run_terms(costs: &CostData, factors: &Factors, year: u64, config: &Config, row: &Row) -> Ran
    requires costs { IsEconomy costs.now }
    requires factors { AreFactors costs.now factors.now }
    requires first { 1 ≤ year }
    requires last { year ≤ costs.now.years }
    requires fits { Fits costs.now config.now }
    requires row { IsRow row.now }
    ensures fuel { result.fuel ≡ fuel costs.now year row.now }
    ensures upkeep { result.upkeep ≡ upkeep costs.now year config.now row.now }
    ensures unserved { result.unserved ≡ unserved costs.now year row.now }
    ensures small { result.fuel + result.upkeep + result.unserved ≤ 10 ^ 16 }
{
    let now = (year - 1) as usize;
    let domestic = factors.fuel_domestic[now];
    let abroad = factors.fuel_foreign[now];
    let middle = factors.middle[now];
    let cents = 12_000 * fixed_of(costs, year, config) + row.variable;
    let short = unserved_cents(costs, year, row);
    Ran {
        fuel: both_worth(
            row.fuel_domestic,
            domestic,
            row.fuel_foreign,
            abroad,
            100_000 * ONE,
        ),
        upkeep: mul_div_floor(cents, middle, 100 * ONE),
        unserved: mul_div_floor(short, middle, 100 * ONE),
    }
}

/// The terms of the additions of a year, counted from 1, from the counts before it to those after.
///
/// After the objective of DYNPRO in the IAEA's Computer Manual Series No. 16; salvage by straight line and the
/// return of the fuel inventory at the horizon are this program's own. Each term has one floor, salvage one
/// for each candidate and project. It takes no memory and never refuses.
pub fn build_cost(economy: &Economy, year: u64, before: &Config, after: &Config) -> Built
    requires first { 1 ≤ year }
    requires last { year ≤ economy.now.years }
    requires before { Fits economy.now before.now }
    requires after { Fits economy.now after.now }
    requires grows { IsAtMost before.now after.now }
    ensures build { result.build ≡ build economy.now year before.now after.now }
    ensures salvage { result.salvage ≡ salvage economy.now year before.now after.now }
    ensures stock { result.stock ≡ stock economy.now year before.now after.now }
    ensures regained { result.salvage ≤ result.build }
    ensures small { result.build + result.stock ≤ 10 ^ 16 }
{
    build_terms(economy.costs(), economy.factors(), year, before, after)
}

/// The terms of running a configuration for a year, counted from 1, with its row.
///
/// After the objective of DYNPRO in the IAEA's Computer Manual Series No. 16; all is paid in the middle of the
/// year. Escalation and the dearer shortages are this program's own. Each term has one floor over the factors
/// of the year. It takes no memory and never refuses.
pub fn run_cost(economy: &Economy, year: u64, config: &Config, row: &Row) -> Ran
    requires first { 1 ≤ year }
    requires last { year ≤ economy.now.years }
    requires fits { Fits economy.now config.now }
    requires row { IsRow row.now }
    ensures fuel { result.fuel ≡ fuel economy.now year row.now }
    ensures upkeep { result.upkeep ≡ upkeep economy.now year config.now row.now }
    ensures unserved { result.unserved ≡ unserved economy.now year row.now }
    ensures small { result.fuel + result.upkeep + result.unserved ≤ 10 ^ 16 }
{
    run_terms(economy.costs(), economy.factors(), year, config, row)
}

/// No salvage is above its investment, whatever the economy, the year and the counts.
#[tactic(auto, using(crate::proofs::Salvage::within_build))]
pub fn salvage_is_within_build()
    ensures { SalvageIsWithinBuild }
{}

/// The cost of a year, counted from 1, in dollars of present worth at the beginning of year 1, from the
/// counts before it to a configuration with its row. It takes no memory and never refuses. Thirty such costs
/// are below 10^18.
pub fn step_cost(economy: &Economy, year: u64, before: &Config, after: &Scored) -> u64
    requires first { 1 ≤ year }
    requires last { year ≤ economy.now.years }
    requires before { Fits economy.now before.now }
    requires after { IsEntry economy.now after.now }
    requires grows { IsAtMost before.now after.now.config }
    ensures value { result ≡ step_cost economy.now year before.now after.now.config after.now.row }
    ensures small { result ≤ 2 * 10 ^ 16 }
{
    let built = build_cost(economy, year, before, &after.config);
    let ran = run_cost(economy, year, &after.config, &after.row);
    built.net() + ran.total()
}
