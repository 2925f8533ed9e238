//! The water of hydro groups, and the installed capacity.
ghost use Rattle.std.specs.Prelude.{◌≡◌, ◌+◌, ◌<◌, ◌≤◌, length, slice_index_or};
ghost use Rattle.year_system.specs.Capacity.{candidate_mw, capacity, group_water, hydro_mw, no_group};
ghost use Rattle.year_system.specs.System.{Fits, full_mw};

use crate::limits::full_mw;
use crate::system::YearSystem;
use plant_data::{Config, Water};

/// The capacity of the thermal candidates by their counts.
fn candidate_mw(system: &YearSystem, config: &Config) -> u64
    requires { Fits system.now config.now }
    ensures value { result ≡ candidate_mw system.now config.now }
    ensures small { result ≤ full_mw system.now.thermal }
{
    let candidates = system.thermal();
    let mut total = 0;
    for k in 0..candidates.len() {
        total += config.get(k) * candidates[k].full;
    }
    total
}

/// The base and the peak of the groups in a period under the first condition.
fn hydro_mw(system: &YearSystem, config: &Config, period: usize) -> u64
    requires fits { Fits system.now config.now }
    requires period { period < length system.now.loads }
    ensures value { result ≡ hydro_mw system.now config.now period }
    ensures small { result ≤ 2400000 }
{
    let thermal = system.thermal().len();
    let groups = system.groups();
    let mut total = 0;
    for k in 0..groups.len() {
        let projects = groups[k].existing + config.get(thermal + k);
        let water = system.group_water(k, projects, period, 0);
        total += water.base + water.peak;
    }
    total
}

impl YearSystem {
    /// The water of the first `projects` projects of the group at place `k` in a period under a condition,
    /// period and condition counted from 0: base and peak in MW, and the energy of the peak block in MWh.
    pub fn group_water(&self, k: usize, projects: u64, period: usize, condition: usize) -> Water
        requires within { k < length self.now.groups }
        requires projects { projects ≤ (slice_index_or self.now.groups k no_group).existing + (slice_index_or self.now.groups k no_group).greatest }
        requires period { period < length self.now.loads }
        requires condition { condition < length self.now.weights }
        ensures value { result ≡ group_water self.now (slice_index_or self.now.groups k no_group) projects period condition }
        ensures base { result.base ≤ 600000 }
        ensures peak { result.peak ≤ 600000 }
        ensures energy { result.energy ≤ 6000000000 }
    {
        let periods = self.loads().len();
        let conditions = self.weights().len();
        let groups = self.groups();
        let table = groups[k].water.as_slice();
        let mut base = 0;
        let mut peak = 0;
        let mut energy = 0;
        for project in 0..projects as usize {
            let water = table[(project * periods + period) * conditions + condition];
            base += water.base;
            peak += water.peak;
            energy += water.energy;
        }
        Water { base, peak, energy }
    }

    /// The installed capacity of a configuration in a period, counted from 0, in MW: the full capacity of
    /// all thermal units, and base and peak of the installed hydro projects under the first condition.
    pub fn capacity(&self, config: &Config, period: usize) -> u64
        requires fits { Fits self.now config.now }
        requires period { period < length self.now.loads }
        ensures value { result ≡ capacity self.now config.now period }
        ensures small { result ≤ 2800000 }
    {
        full_mw(self.existing()) + candidate_mw(self, config) + hydro_mw(self, config, period)
    }
}
