//! The system of a year and its parts.
ghost use Rattle.std.specs.Prelude.{◌≡◌, ◌+◌, ◌<◌, ◌≤◌, ◌^◌, ◌↔◌, IsTrue, length, slice_index};
ghost use Rattle.year_system.specs.System.{Fits, IsSystem, greatest, size};

use plant_data::{Config, Group, Listed, Load, Plant, Rule, Same};
use std::marker::Model;

/// The physical system of a year: all that a simulation depends on, beside the configuration.
///
/// Contracts see the record of its parts. It has none of a deck's faults in its own data.
#[derive(Debug, Drop)]
pub struct YearSystem {
    rule: Rule,
    loads: Listed<Load>,
    weights: Listed<u64>,
    existing: Listed<Plant>,
    thermal: Listed<Plant>,
    groups: Listed<Group>,
    step: u64,
}

impl Model for YearSystem {
    ghost use Rattle.year_system.specs.System.{System, IsSystem};

    ghost Value = { System };

    ghost view = { λ s. record { rule = s.rule; loads = s.loads; weights = s.weights; existing = s.existing; thermal = s.thermal; groups = s.groups; step = s.step } };

    ghost invariant = { λ s. IsSystem (record { rule = s.rule; loads = s.loads; weights = s.weights; existing = s.existing; thermal = s.thermal; groups = s.groups; step = s.step }) };
}

impl YearSystem {
    /// The system with these parts: the rule of loading; the load of each of 1, 2, 3, 4, 6 or 12 periods;
    /// the weights of 1 to 5 hydro conditions, in ten-thousandths; the existing plants with at least one
    /// unit in the year, by number; the thermal candidates by number, whose units are their greatest
    /// counts; the hydro groups by number; and the step of the grid, 1 to 20 MW. It takes no memory.
    pub fn new(
        rule: Rule,
        loads: Listed<Load>,
        weights: Listed<u64>,
        existing: Listed<Plant>,
        thermal: Listed<Plant>,
        groups: Listed<Group>,
        step: u64,
    ) -> YearSystem
        requires { IsSystem (record { rule = rule; loads = loads; weights = weights; existing = existing; thermal = thermal; groups = groups; step = step }) }
        ensures { result ≡ record { rule = rule; loads = loads; weights = weights; existing = existing; thermal = thermal; groups = groups; step = step } }
    {
        YearSystem {
            rule,
            loads,
            weights,
            existing,
            thermal,
            groups,
            step,
        }
    }

    /// The rule of loading.
    pub fn rule(&self) -> Rule
        ensures value { result ≡ self.now.rule }
        ensures valid { IsSystem self.now }
    {
        self.rule
    }

    /// The load of each period.
    pub fn loads(&self) -> &[Load]
        ensures value { result.now ≡ self.now.loads }
        ensures valid { IsSystem self.now }
    {
        self.loads.as_slice()
    }

    /// The weight of each hydro condition, in ten-thousandths; their sum is 10,000.
    pub fn weights(&self) -> &[u64]
        ensures value { result.now ≡ self.now.weights }
        ensures valid { IsSystem self.now }
    {
        self.weights.as_slice()
    }

    /// The existing plants, by number.
    pub fn existing(&self) -> &[Plant]
        ensures value { result.now ≡ self.now.existing }
        ensures valid { IsSystem self.now }
    {
        self.existing.as_slice()
    }

    /// The thermal candidates, by number, whose units are their greatest counts.
    pub fn thermal(&self) -> &[Plant]
        ensures value { result.now ≡ self.now.thermal }
        ensures valid { IsSystem self.now }
    {
        self.thermal.as_slice()
    }

    /// The hydro groups, by number.
    pub fn groups(&self) -> &[Group]
        ensures value { result.now ≡ self.now.groups }
        ensures valid { IsSystem self.now }
    {
        self.groups.as_slice()
    }

    /// The step of the grid, 1 to 20 MW.
    pub fn step(&self) -> u64
        ensures value { result ≡ self.now.step }
        ensures valid { IsSystem self.now }
    {
        self.step
    }

    /// The number of candidates, 1 to 14.
    pub fn width(&self) -> usize
        ensures value { result ≡ length (greatest self.now) }
        ensures low { 1 ≤ result }
        ensures high { result ≤ 14 }
        ensures codes { size (greatest self.now) ≤ 2 ^ 50 }
    {
        self.thermal.as_slice().len() + self.groups.as_slice().len()
    }

    /// The greatest count of the candidate at place `k`, counted from 0, thermal candidates first.
    pub fn greatest(&self, k: usize) -> u64
        requires { k < length (greatest self.now) }
        ensures value { result ≡ slice_index (greatest self.now) k }
        ensures small { result ≤ 128 }
    {
        if k < self.thermal.as_slice().len() {
            self.thermal.as_slice()[k].units
        } else {
            self.groups.as_slice()[k - self.thermal.as_slice().len()].greatest
        }
    }

    /// Whether a configuration has a count for each candidate, none above its greatest.
    pub fn fits(&self, config: &Config) -> bool
        ensures { IsTrue result ↔ Fits self.now config.now }
    {
        if config.width() != self.width() {
            return false;
        }
        for k in 0..config.width() {
            if config.get(k) > self.greatest(k) {
                return false;
            }
        }
        true
    }
}

impl Same for YearSystem {
    fn same(&self, other: &Self) -> bool {
        self.rule.same(&other.rule)
            && self.loads.same(&other.loads)
            && self.weights.same(&other.weights)
            && self.existing.same(&other.existing)
            && self.thermal.same(&other.thermal)
            && self.groups.same(&other.groups)
            && self.step == other.step
    }
}
