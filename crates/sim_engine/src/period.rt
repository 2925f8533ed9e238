//! A period: its blocks in their order, and what is not served behind all of them.
ghost use Rattle.std.specs.Prelude.{◌≡◌, ℕ, ◌+◌, ◌*◌, ◌/◌, ◌<◌, ◌≤◌, ◌^◌, [], length, take, All, sum};
ghost use Rattle.sim_engine.specs.Loading.{cells_in, energies, lolp, unserved};
ghost use Rattle.sim_engine.specs.Prepared.{KeepsRoom, period_of};
ghost use Rattle.sim_engine.specs.Stack.{cells_of, parts_of};

use crate::shelves::Shelves;
use crate::stack::{Loaded, Stack};
use convolution::Curve;
use loading_order::Block;
use wasp_fixed::{M, ONE, mul_div_floor};

/// The energy in MWh of a block that covers so much of the equivalent load.
fn block_energy(available: u64, area: u64, capacity: u64, step_hours: u64) -> u64
    requires available { available ≤ M }
    requires covered { area ≤ capacity * ONE }
    requires capacity { capacity ≤ 65536 }
    requires hours { step_hours ≤ 175200 }
    ensures value { result ≡ available * area * step_hours / (M * ONE) }
    ensures most { result ≤ capacity * step_hours }
{
    mul_div_floor(available * area, step_hours, M * ONE)
}

/// Loads the blocks in their order onto the load of the stack, and writes the energy of each.
fn load_blocks(
    stack: &mut Stack,
    spare: &mut Curve,
    blocks: &[Block],
    available: &[u64],
    step: u64,
    hours: u64,
    room: &mut [u64],
) -> u64
    requires empty { stack.old.parts ≡ [] }
    requires curves { length available.now < stack.old.curves }
    requires fits { length stack.old.load + cells_in step blocks.now ≤ stack.old.room }
    requires spare { length stack.old.load + cells_in step blocks.now ≤ spare.old.room }
    requires cells { cells_in step blocks.now ≤ 65536 }
    requires available { All (λ a. a ≤ M) available.now }
    requires units { All (λ b. b.unit < length available.now) blocks.now }
    requires step { 1 ≤ step }
    requires hours { step * hours ≤ 175200 }
    requires room { length blocks.now ≤ length room.old }
    ensures energies { (top : ℕ) → take (length blocks.now) room.new ≡ energies (period_of stack.old.load blocks.now available.now top step hours) }
    ensures bounded { All (λ e. e < 2 ^ 40) (take (length blocks.now) room.new) }
    ensures total { sum (take (length blocks.now) room.new) ≤ cells_in step blocks.now * (step * hours) }
    ensures stack { stack.new ≡ record stack.old { parts = parts_of step available.now blocks.now } }
    ensures cells { cells_of stack.new.parts ≡ cells_in step blocks.now }
    ensures full { result ≡ cells_in step blocks.now }
    ensures spare { spare.new.room ≡ spare.old.room }
{
    let mut from = 0;
    for k in 0..blocks.len() {
        let block = &blocks[k];
        let new = Loaded {
            unit: block.unit,
            capacity: block.capacity / step,
            rate: M - available[block.unit],
        };
        let area = stack.load(new, from, spare);
        room[k] = block_energy(available[block.unit], area, new.capacity, step * hours);
        from += new.capacity;
    }
    from
}

/// What the simulation of a period works on.
#[derive(Drop)]
pub struct Bench {
    /// The load for the thermal units and what is loaded.
    pub stack: Stack,
    /// Where the load is made, and then a curve without one unit.
    pub spare: Curve,
    /// The availability of each unit in the period, in parts of `M`.
    pub available: Vec<u64>,
    /// The energy of each block, in MWh.
    pub energies: Vec<u64>,
    /// What is kept from one run to the next; no shelf where nothing is.
    pub kept: Shelves,
}

/// What is not served behind all blocks.
#[derive(Clone, Copy, Debug, PartialEq, Eq)]
pub struct Missing {
    /// The loss-of-load probability, in parts of `ONE`.
    pub lolp: u64,
    /// The energy not served, in MWh.
    pub unserved: u64,
}

/// Runs a period whose load, of at most `top` cells, is the bench's spare curve. The availabilities of
/// the `units` units stand in the bench, and the energies of the blocks are written there.
pub fn run_period(
    bench: &mut Bench,
    blocks: &[Block],
    units: usize,
    top: u64,
    step: u64,
    hours: u64,
) -> Missing
    requires curves { units < bench.old.stack.curves }
    requires fits { length bench.old.spare.cells + cells_in step blocks.now ≤ bench.old.stack.room }
    requires spare { length bench.old.spare.cells + cells_in step blocks.now ≤ bench.old.spare.room }
    requires cells { cells_in step blocks.now ≤ 65536 }
    requires top { top ≤ 65536 }
    requires count { units ≤ length bench.old.available.items }
    requires available { All (λ a. a ≤ M) (take units bench.old.available.items) }
    requires units { All (λ b. b.unit < units) blocks.now }
    requires step { 1 ≤ step }
    requires hours { step * hours ≤ 175200 }
    requires room { length blocks.now ≤ length bench.old.energies.items }
    ensures energies { take (length blocks.now) bench.new.energies.items ≡ energies (period_of bench.old.spare.cells blocks.now (take units bench.old.available.items) top step hours) }
    ensures bounded { All (λ e. e < 2 ^ 40) (take (length blocks.now) bench.new.energies.items) }
    ensures total { sum (take (length blocks.now) bench.new.energies.items) ≤ cells_in step blocks.now * (step * hours) }
    ensures lolp { result.lolp ≡ lolp (period_of bench.old.spare.cells blocks.now (take units bench.old.available.items) top step hours) }
    ensures unserved { result.unserved ≡ unserved (period_of bench.old.spare.cells blocks.now (take units bench.old.available.items) top step hours) }
    ensures small { result.lolp ≤ ONE }
    ensures most { result.unserved ≤ top * (step * hours) }
    ensures kept { KeepsRoom bench.old bench.new }
{
    bench.stack.begin(&bench.spare);
    let full = load_blocks(
        &mut bench.stack,
        &mut bench.spare,
        blocks,
        &bench.available[..units],
        step,
        hours,
        bench.energies.as_mut_slice(),
    );
    let (lolp, area) = bench.stack.tail(full, top);
    let unserved = mul_div_floor(area, step * hours, ONE);
    Missing { lolp, unserved }
}
