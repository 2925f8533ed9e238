//! A year under one hydro condition.
ghost use Rattle.std.specs.Prelude.{◌≡◌, ℕ, ◌+◌, ◌*◌, ◌<◌, ◌≤◌, ◌^◌, length, take, All, slice_index, sum};
ghost use Rattle.year_system.specs.System.{hours};
ghost use Rattle.sim_engine.specs.Dispatch.{dispatch};
ghost use Rattle.sim_engine.specs.Loading.{energies, lolp, unserved};
ghost use Rattle.sim_engine.specs.Prepared.{AreSmall, HasRoom, IsPrepared, KeepsRoom, most_energy};
ghost use Rattle.sim_engine.specs.Row.{domestic_price, foreign_price, over_periods, period_priced, variable_price, year_unserved};

use crate::costs::{Costs, price_blocks};
use crate::either::{simulate_in_full, simulate_kept};
use crate::fleet::Fleet;
use crate::period::{Bench, Missing};
use plant_data::Config;
use wasp_fixed::ONE;
use year_system::YearSystem;

/// Simulates a period under a condition, and leaves the energies of the fleet's blocks in the bench.
pub fn simulate_period(
    system: &YearSystem,
    config: &Config,
    fleet: &Fleet,
    period: usize,
    condition: usize,
    bench: &mut Bench,
) -> Missing
    requires prepared { IsPrepared system.now config.now fleet.now }
    requires room { HasRoom system.now fleet.now bench.old }
    requires period { period < length system.now.loads }
    requires condition { condition < length system.now.weights }
    ensures energies { take (length fleet.now.blocks) bench.new.energies.items ≡ energies (dispatch system.now config.now period condition) }
    ensures bounded { All (λ e. e < 2 ^ 40) (take (length fleet.now.blocks) bench.new.energies.items) }
    ensures total { sum (take (length fleet.now.blocks) bench.new.energies.items) ≤ most_energy system.now fleet.now.blocks 1 }
    ensures lolp { result.lolp ≡ lolp (dispatch system.now config.now period condition) }
    ensures unserved { result.unserved ≡ unserved (dispatch system.now config.now period condition) }
    ensures small { result.lolp ≤ ONE }
    ensures most { result.unserved ≤ 400019 * hours system.now }
    ensures kept { KeepsRoom bench.old bench.new }
{
    match simulate_kept(system, config, fleet, period, condition, bench) {
        Some(missing) => missing,
        None => simulate_in_full(system, config, fleet, period, condition, bench),
    }
}

/// What one period under one condition adds.
#[derive(Clone, Copy, Debug, PartialEq, Eq)]
pub struct Piece {
    pub costs: Costs,
    pub missing: Missing,
}

/// One period under one condition.
fn run_piece(
    system: &YearSystem,
    config: &Config,
    fleet: &Fleet,
    period: usize,
    condition: usize,
    bench: &mut Bench,
) -> Piece
    requires prepared { IsPrepared system.now config.now fleet.now }
    requires room { HasRoom system.now fleet.now bench.old }
    requires period { period < length system.now.loads }
    requires condition { condition < length system.now.weights }
    ensures domestic { result.costs.domestic ≡ period_priced system.now config.now domestic_price period condition }
    ensures foreign { result.costs.foreign ≡ period_priced system.now config.now foreign_price period condition }
    ensures variable { result.costs.variable ≡ period_priced system.now config.now variable_price period condition }
    ensures lolp { result.missing.lolp ≡ lolp (dispatch system.now config.now period condition) }
    ensures unserved { result.missing.unserved ≡ unserved (dispatch system.now config.now period condition) }
    ensures small { AreSmall system.now fleet.now.blocks 1 result.costs result.missing.unserved }
    ensures lolp_small { result.missing.lolp ≤ ONE }
    ensures coarse { (result.costs.domestic ≤ 2 ^ 63) × (result.costs.foreign ≤ 2 ^ 63) × (result.costs.variable ≤ 2 ^ 63) × (result.missing.unserved ≤ 2 ^ 40) }
    ensures kept { KeepsRoom bench.old bench.new }
{
    let missing = simulate_period(system, config, fleet, period, condition, bench);
    let blocks = fleet.blocks();
    let costs = price_blocks(blocks, &bench.energies[..blocks.len()], fleet.units());
    Piece { costs, missing }
}

/// The sums of a condition over the periods.
#[derive(Clone, Copy, Debug, PartialEq, Eq)]
pub struct Sums {
    pub costs: Costs,
    /// MWh.
    pub unserved: u64,
}

/// A year under one condition. Each period's loss-of-load probability is added to that period's place of
/// `lolps`, times the condition's weight.
pub fn run_condition(
    system: &YearSystem,
    config: &Config,
    fleet: &Fleet,
    condition: usize,
    bench: &mut Bench,
    lolps: &mut [u64],
) -> Sums
    requires prepared { IsPrepared system.now config.now fleet.now }
    requires room { HasRoom system.now fleet.now bench.old }
    requires condition { condition < length system.now.weights }
    requires lolps { length lolps.old ≡ length system.now.loads }
    requires small { All (λ l. l ≤ 2 ^ 60) lolps.old }
    ensures domestic { result.costs.domestic ≡ over_periods system.now (λ m. period_priced system.now config.now domestic_price m condition) }
    ensures foreign { result.costs.foreign ≡ over_periods system.now (λ m. period_priced system.now config.now foreign_price m condition) }
    ensures variable { result.costs.variable ≡ over_periods system.now (λ m. period_priced system.now config.now variable_price m condition) }
    ensures unserved { result.unserved ≡ year_unserved system.now config.now condition }
    ensures lolps { (m : ℕ) → m < length lolps.old → slice_index lolps.new m ≡ slice_index lolps.old m + slice_index system.now.weights condition * lolp (dispatch system.now config.now m condition) }
    ensures within { (result.costs.domestic ≤ 2500000000 * 3504000000) × (result.costs.foreign ≤ 2500000000 * 3504000000) × (result.costs.variable ≤ 100000 * 3504000000) × (result.unserved ≤ 400019 * 8760) }
    ensures rise { (m : ℕ) → m < length lolps.old → slice_index lolps.new m ≤ slice_index lolps.old m + slice_index system.now.weights condition * ONE }
    ensures kept { KeepsRoom bench.old bench.new }
{
    let weight = system.weights()[condition];
    let mut domestic = 0;
    let mut foreign = 0;
    let mut variable = 0;
    let mut unserved = 0;
    for m in 0..system.loads().len() {
        let piece = run_piece(system, config, fleet, m, condition, bench);
        domestic += piece.costs.domestic;
        foreign += piece.costs.foreign;
        variable += piece.costs.variable;
        unserved += piece.missing.unserved;
        lolps[m] += weight * piece.missing.lolp;
    }
    Sums {
        costs: Costs {
            domestic,
            foreign,
            variable,
        },
        unserved,
    }
}
