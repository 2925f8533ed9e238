//! A period under a condition: on its shelf, or in full.
ghost use Rattle.std.specs.Prelude.{◌≡◌, ℕ, ◌+◌, ◌*◌, ◌<◌, ◌≤◌, ◌^◌, length, take, All, IfSome, IsTrue, sum};
ghost use Rattle.year_system.specs.System.{hours};
ghost use Rattle.sim_engine.specs.Curves.{load_cells};
ghost use Rattle.sim_engine.specs.Dispatch.{dispatch};
ghost use Rattle.sim_engine.specs.Loading.{energies, lolp, unserved};
ghost use Rattle.sim_engine.specs.Prepared.{HasRoom, IsPrepared, KeepsRoom, most_energy};

use crate::fleet::Fleet;
use crate::keyed_shelf::KeyedShelf;
use crate::laying::Laying;
use crate::period::{Bench, Missing, run_period};
use crate::shelves::place_of;
use crate::water::fill_thermal_load;
use convolution::Curve;
use plant_data::Config;
use sim_fast::{Turn, Workbench};
use wasp_fixed::ONE;
use year_system::YearSystem;

/// Runs a period under a condition on a shelf, where it serves, and writes the energies of the fleet's blocks. The
/// load is made in a curve to spare, and the availabilities of the units are written.
fn run_on(
    system: &YearSystem,
    config: &Config,
    fleet: &Fleet,
    period: usize,
    condition: usize,
    shelf: &mut KeyedShelf,
    workbench: &mut Workbench,
    laying: &mut Laying,
    turns: &mut [Turn],
    spare: &mut Curve,
    available: &mut [u64],
    room: &mut [u64],
) -> Option<Missing>
    requires prepared { IsPrepared system.now config.now fleet.now }
    requires period { period < length system.now.loads }
    requires condition { condition < length system.now.weights }
    requires spare { load_cells system.now period ≤ spare.old.room }
    requires available { length fleet.now.units ≤ length available.old }
    requires room { length fleet.now.blocks ≤ length room.old }
    ensures energies { IfSome result (λ m. take (length fleet.now.blocks) room.new ≡ energies (dispatch system.now config.now period condition)) }
    ensures bounded { IfSome result (λ m. All (λ e. e < 2 ^ 40) (take (length fleet.now.blocks) room.new)) }
    ensures total { IfSome result (λ m. sum (take (length fleet.now.blocks) room.new) ≤ most_energy system.now fleet.now.blocks 1) }
    ensures lolp { IfSome result (λ m. m.lolp ≡ lolp (dispatch system.now config.now period condition)) }
    ensures unserved { IfSome result (λ m. m.unserved ≡ unserved (dispatch system.now config.now period condition)) }
    ensures small { IfSome result (λ m. m.lolp ≤ ONE) }
    ensures most { IfSome result (λ m. m.unserved ≤ 400019 * hours system.now) }
    ensures spare { spare.new.room ≡ spare.old.room }
{
    let step = system.step();
    let blocks = fleet.blocks();
    if !laying.lay(blocks, step) {
        return None;
    }
    if !shelf.take_load(system, config, period, condition, spare) {
        return None;
    }
    let loads = system.loads();
    let top = loads[period].peak.div_ceil(step);
    fleet.write_available(loads.len(), period, available);
    shelf.run(
        workbench,
        laying,
        turns,
        blocks,
        &available[..fleet.units().len()],
        top,
        step,
        system.hours(),
        room,
    )
}

/// Simulates a period under a condition on its shelf, where there is one and it serves, and leaves the energies of
/// the fleet's blocks in the bench.
pub fn simulate_kept(
    system: &YearSystem,
    config: &Config,
    fleet: &Fleet,
    period: usize,
    condition: usize,
    bench: &mut Bench,
) -> Option<Missing>
    requires prepared { IsPrepared system.now config.now fleet.now }
    requires room { HasRoom system.now fleet.now bench.old }
    requires period { period < length system.now.loads }
    requires condition { condition < length system.now.weights }
    ensures energies { IfSome result (λ m. take (length fleet.now.blocks) bench.new.energies.items ≡ energies (dispatch system.now config.now period condition)) }
    ensures bounded { IfSome result (λ m. All (λ e. e < 2 ^ 40) (take (length fleet.now.blocks) bench.new.energies.items)) }
    ensures total { IfSome result (λ m. sum (take (length fleet.now.blocks) bench.new.energies.items) ≤ most_energy system.now fleet.now.blocks 1) }
    ensures lolp { IfSome result (λ m. m.lolp ≡ lolp (dispatch system.now config.now period condition)) }
    ensures unserved { IfSome result (λ m. m.unserved ≡ unserved (dispatch system.now config.now period condition)) }
    ensures small { IfSome result (λ m. m.lolp ≤ ONE) }
    ensures most { IfSome result (λ m. m.unserved ≤ 400019 * hours system.now) }
    ensures kept { KeepsRoom bench.old bench.new }
{
    let place = place_of(period, condition);
    if place >= bench.kept.shelves.len() {
        return None;
    }
    run_on(
        system,
        config,
        fleet,
        period,
        condition,
        &mut bench.kept.shelves[place],
        &mut bench.kept.workbench,
        &mut bench.kept.laying,
        bench.kept.turns.as_mut_slice(),
        &mut bench.spare,
        bench.available.as_mut_slice(),
        bench.energies.as_mut_slice(),
    )
}

/// Simulates a period under a condition in full, and leaves the energies of the fleet's blocks in the bench.
pub fn simulate_in_full(
    system: &YearSystem,
    config: &Config,
    fleet: &Fleet,
    period: usize,
    condition: usize,
    bench: &mut Bench,
) -> Missing
    requires prepared { IsPrepared system.now config.now fleet.now }
    requires room { HasRoom system.now fleet.now bench.old }
    requires period { period < length system.now.loads }
    requires condition { condition < length system.now.weights }
    ensures energies { take (length fleet.now.blocks) bench.new.energies.items ≡ energies (dispatch system.now config.now period condition) }
    ensures bounded { All (λ e. e < 2 ^ 40) (take (length fleet.now.blocks) bench.new.energies.items) }
    ensures total { sum (take (length fleet.now.blocks) bench.new.energies.items) ≤ most_energy system.now fleet.now.blocks 1 }
    ensures lolp { result.lolp ≡ lolp (dispatch system.now config.now period condition) }
    ensures unserved { result.unserved ≡ unserved (dispatch system.now config.now period condition) }
    ensures small { result.lolp ≤ ONE }
    ensures most { result.unserved ≤ 400019 * hours system.now }
    ensures kept { KeepsRoom bench.old bench.new }
{
    let step = system.step();
    let loads = system.loads();
    let top = loads[period].peak.div_ceil(step);
    fill_thermal_load(system, config, period, condition, &mut bench.spare);
    fleet.write_available(loads.len(), period, bench.available.as_mut_slice());
    run_period(
        bench,
        fleet.blocks(),
        fleet.units().len(),
        top,
        step,
        system.hours(),
    )
}
