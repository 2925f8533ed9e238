//! The order in which keys are demanded.
//!
//! What an engine keeps are beginnings of lists of units, so it is quickest where each configuration shares a long
//! beginning with the one before. The rows do not depend on the order, and no contract but that of a permutation
//! speaks of it.
ghost use Rattle.std.specs.Prelude.{◌<◌, All, IsPermutation, length};

use plant_data::Plant;
use sim_sweep::Demand;
use std::alloc::Global;
use wasp_fixed::OutOfMemory;
use year_system::{Book, YearSystem};

/// What a chance of one is.
const CERTAIN: u64 = 1 << 20;

/// What the base block of a plant's units costs, by which blocks are loaded, in thousandths of a cent per MWh.
fn base_cost(plant: &Plant) -> u64 {
    let price = plant.domestic.saturating_add(plant.foreign);
    let fuel = plant.heat.saturating_mul(price);
    fuel.saturating_add(plant.variable.saturating_mul(1000))
}

/// All plants of a system by rising cost of their base blocks.
fn by_merit(alloc: Global, system: &YearSystem) -> Result<Vec<Plant>, OutOfMemory> {
    let mut plants = Vec::new(alloc);
    plants.extend_from_slice(system.existing())?;
    plants.extend_from_slice(system.thermal())?;
    plants.sort_unstable_by_key(|plant: &Plant| -> u64 { base_cost(plant) });
    Ok(plants)
}

/// The mean place at which two lists part that differ by a unit of a candidate, in parts of `CERTAIN`.
///
/// They part at the unit itself, or before it at one whose repair the unit has moved: that is a smaller one, since
/// repair is placed by falling capacity, and about three of ten are moved.
fn parting_place(merit: &[Plant], candidate: &Plant) -> u64 {
    let mut mean = 0_u64;
    let mut still_equal = CERTAIN;
    for place in 0..merit.len() {
        let plant = &merit[place];
        if plant.number == candidate.number {
            return mean.saturating_add(still_equal.saturating_mul(place as u64));
        }
        if candidate.repair > 0 && plant.repair > 0 && plant.full <= candidate.full {
            let moved = still_equal / 10 * 3;
            mean = mean.saturating_add(moved.saturating_mul(place as u64));
            still_equal = still_equal.saturating_sub(moved);
        }
    }
    mean
}

/// The places of a system's candidates in a configuration, the one first whose count should change least often: hydro
/// groups, whose counts change the load, and then by rising place of parting, the larger first where these are equal.
fn slowest_first(alloc: Global, system: &YearSystem) -> Result<Vec<usize>, OutOfMemory> {
    let merit = by_merit(alloc, system)?;
    let thermal = system.thermal();
    let mut places = Vec::new(alloc);
    for place in 0..system.width() {
        places.push(place)?;
    }
    places.sort_unstable_by_key(|place: &usize| -> [u64; 2] {
        match thermal.get(*place) {
            Some(plant) => [parting_place(&merit, plant), u64::MAX - plant.full],
            None => [0, 0],
        }
    });
    Ok(places)
}

/// The number of a demand's system, and its counts in an order of places, eight bits each.
fn key(slowest: &[usize], demand: &Demand) -> u128 {
    let mut key = u128::from(demand.id);
    for place in slowest {
        let count = if *place < demand.config.width() {
            demand.config.get(*place)
        } else {
            0
        };
        key = (key << 8) | u128::from(count);
    }
    key
}

/// Puts demands in the order in which neighbours share most, by the plants of the first of the systems with these
/// numbers in the book. After want of memory they are as before.
pub(crate) fn sort_by_neighbours(
    alloc: Global,
    book: &Book,
    ids: &[u64],
    demands: &mut Vec<Demand>,
) -> Result<(), OutOfMemory>
    requires within { All (λ id. id < length book.now) ids.now }
    ensures same { IsPermutation demands.old.items demands.new.items }
{
    let Some(id) = ids.first() else {
        return Ok(());
    };
    let slowest = slowest_first(alloc, book.get(*id))?;
    demands.sort_unstable_by_key(|demand: &Demand| -> u128 { key(&slowest, demand) });
    Ok(())
}
