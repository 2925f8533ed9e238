//! The discount factors of an economy, made once.
ghost use Rattle.std.specs.Prelude.{◌*◌, ◌≤◌};
ghost use Rattle.wasp_fixed.specs.Discounts.{end_factor, mid_factor};
ghost use Rattle.cost_terms.specs.Cost.{fuel_factor};
ghost use Rattle.cost_terms.specs.Factors.{AreFactors, IsColumn};

use crate::prices::CostData;
use wasp_fixed::{ONE, discount, middle, mul_div_floor};

/// One factor for each number of years from 0 to 30, in parts of `ONE`.
type Column = [u64; 31];

/// The factors of an economy.
#[derive(Clone, Copy, Debug)]
pub struct Factors {
    /// The worth of domestic money at the end of so many years.
    pub end_domestic: Column,
    /// The same of foreign money.
    pub end_foreign: Column,
    /// The worth of domestic money in the middle of the year after so many years.
    pub middle: Column,
    /// The worth then of what domestic fuel for `ONE` has come to cost.
    pub fuel_domestic: Column,
    /// The same of foreign fuel.
    pub fuel_foreign: Column,
}

/// The worth of `ONE` at the end of each number of years.
fn end_column(rate: u64) -> Column
    requires { rate ≤ 10000 }
    ensures { IsColumn (end_factor rate) ONE result }
{
    let mut column = [0; 31];
    for k in 0..31usize {
        column[k] = discount(rate, k as u64);
    }
    column
}

/// The worth of `ONE` in the middle of the year after each number of years.
fn middle_column(rate: u64) -> Column
    requires { rate ≤ 10000 }
    ensures { IsColumn (mid_factor rate) ONE result }
{
    let mut column = [0; 31];
    for k in 0..31usize {
        column[k] = middle(rate, k as u64);
    }
    column
}

/// The same of what costs more each year, by the rate `escalation`.
#[tactic(auto, using(crate::proofs::FactorBounds::escalated_most, crate::proofs::FactorBounds::fuel_most), unfolding(crate::specs::Cost::escalated))]
fn fuel_column(rate: u64, escalation: u64) -> Column
    requires rate { rate ≤ 10000 }
    requires escalation { escalation ≤ 1000 }
    ensures { IsColumn (fuel_factor rate escalation) (18 * ONE) result }
{
    let mut column = [0; 31];
    let mut price = ONE;
    for k in 0..31usize {
        column[k] = mul_div_floor(middle(rate, k as u64), price, ONE);
        price = price * (10_000 + escalation) / 10_000;
    }
    column
}

/// The factors of an economy with these costs.
pub fn factors_of(costs: &CostData) -> Factors
    requires domestic { costs.now.rates.domestic ≤ 10000 }
    requires foreign { costs.now.rates.foreign ≤ 10000 }
    requires dearer { costs.now.escalation.domestic ≤ 1000 }
    requires dearer_abroad { costs.now.escalation.foreign ≤ 1000 }
    ensures { AreFactors costs.now result }
{
    let rates = costs.rates;
    let escalation = costs.escalation;
    Factors {
        end_domestic: end_column(rates.domestic),
        end_foreign: end_column(rates.foreign),
        middle: middle_column(rates.domestic),
        fuel_domestic: fuel_column(rates.domestic, escalation.domestic),
        fuel_foreign: fuel_column(rates.foreign, escalation.foreign),
    }
}
