//! The economy of a case's years.
ghost use Rattle.std.specs.Prelude.{◌≡◌, ◌≤◌, length};
ghost use Rattle.cost_terms.specs.Cost.{nothing_built};
ghost use Rattle.cost_terms.specs.CostData.{Fits, IsEconomy, greatest};
ghost use Rattle.cost_terms.specs.Factors.{AreFactors};

use crate::factors::{Factors, factors_of};
use crate::prices::CostData;
use plant_data::Config;
use std::marker::Model;

/// The data of the costs of a case's years, which contracts see as their record.
///
/// The discount factors of its rates are made once, by `new`, and no cost makes them again.
#[derive(Debug, Drop)]
pub struct Economy {
    costs: CostData,
    factors: Factors,
}

impl Model for Economy {
    ghost use Rattle.cost_terms.specs.declared.prices.CostData.{CostData};
    ghost use Rattle.cost_terms.specs.CostData.{IsEconomy};
    ghost use Rattle.cost_terms.specs.Factors.{AreFactors};

    ghost Value = { CostData };

    ghost view = { λ e. e.costs };

    ghost invariant = { λ e. IsEconomy e.costs × AreFactors e.costs e.factors };
}

impl Economy {
    /// The economy with these data. It takes no memory.
    pub fn new(costs: CostData) -> Economy
        requires { IsEconomy costs }
        ensures { result ≡ costs }
    {
        let factors = factors_of(&costs);
        Economy { costs, factors }
    }

    /// The data.
    pub fn costs(&self) -> &CostData
        ensures value { result.now ≡ self.now }
        ensures valid { IsEconomy self.now }
    {
        &self.costs
    }

    /// The discount factors.
    pub(crate) fn factors(&self) -> &Factors
        ensures { AreFactors self.now result.now }
    {
        &self.factors
    }

    /// The years, 1 to 30.
    pub fn years(&self) -> u64
        ensures value { result ≡ self.now.years }
        ensures low { 1 ≤ result }
        ensures high { result ≤ 30 }
        ensures valid { IsEconomy self.now }
    {
        self.costs.years
    }

    /// The number of candidates, 1 to 14.
    pub fn width(&self) -> usize
        ensures value { result ≡ length (greatest self.now) }
        ensures low { 1 ≤ result }
        ensures high { result ≤ 14 }
        ensures valid { IsEconomy self.now }
    {
        self.costs.thermal.as_slice().len() + self.costs.groups.as_slice().len()
    }

    /// The configuration before year 1: no unit of any candidate.
    pub fn nothing_built(&self) -> Config
        ensures value { result ≡ nothing_built self.now }
        ensures fits { Fits self.now result }
        ensures valid { IsEconomy self.now }
    {
        Config::zero(self.width())
    }
}
