//! The plain engine.
ghost use Rattle.std.specs.Prelude.{◌≡◌, ℕ, ◌+◌, ◌≤◌, ◌<◌, [], length, IfOk, IsOk, OnOk, OnErr, None};
ghost use Rattle.sim_engine.specs.Engine.{no_room, widened};

use crate::engine::SimEngine;
use crate::fleet::Fleet;
use crate::generation::run_generations;
use crate::period::Bench;
use crate::rows::run_row;
use crate::shelves::Shelves;
use crate::stack::Stack;
use convolution::Curve;
use plant_data::{Config, Row};
use std::alloc::Global;
use std::marker::Model;
use wasp_fixed::OutOfMemory;
use year_system::YearSystem;

/// The greatest number of blocks, two of each thermal unit.
pub const MAX_BLOCKS: usize = 256;

/// A bench for so many cells and units, with shelves where anything is to be kept.
fn make_bench(alloc: Global, cells: usize, units: usize, keeps: bool) -> Result<Bench, OutOfMemory>
    requires cells { cells ≤ 65536 }
    requires units { units ≤ 128 }
    ensures stack { IfOk result (λ b. b.stack ≡ record { load = []; parts = []; room = cells; curves = units + 1 }) }
    ensures spare { IfOk result (λ b. b.spare ≡ record { cells = []; room = cells }) }
    ensures available { IfOk result (λ b. length b.available.items ≡ units) }
    ensures energies { IfOk result (λ b. length b.energies.items ≡ MAX_BLOCKS) }
{
    Ok(Bench {
        stack: Stack::with_room(alloc, cells, units)?,
        spare: Curve::with_room(alloc, cells)?,
        available: vec![in alloc; 0u64; units]?,
        energies: vec![in alloc; 0u64; MAX_BLOCKS]?,
        kept: Shelves::where_kept(alloc, keeps, cells, units)?,
    })
}

/// An engine that keeps the equivalent load behind each prefix of the list of units, within a period,
/// and nothing from one run to the next. Its curves take four bytes a cell: one for each unit, one for
/// the load and one to spare.
#[derive(Drop)]
pub struct PlainEngine {
    alloc: Global,
    fleet: Fleet,
    bench: Bench,
    simulated: u64,
    detailed: u64,
}

impl Model for PlainEngine {
    ghost use Rattle.std.specs.Prelude.{◌≡◌, ◌<◌, ◌≤◌, length};
    ghost use Rattle.sim_engine.specs.Engine.{PlainView};

    ghost Value = { PlainView };

    ghost view = { λ e. record { room = record { cells = e.bench.spare.room; units = e.fleet.room }; simulated = e.simulated; detailed = e.detailed } };

    ghost invariant = { λ e. (e.bench.stack.room ≡ e.bench.spare.room) × (e.fleet.room ≤ length e.bench.available.items) × (1 ≤ e.bench.spare.room → (e.fleet.room < e.bench.stack.curves) × (256 ≤ length e.bench.energies.items)) };
}

impl PlainEngine {
    /// An engine with no room and no runs, which takes no memory and tells no runs.
    pub fn new(alloc: Global) -> PlainEngine
        ensures { result ≡ record { room = no_room; simulated = 0; detailed = 0 } }
    {
        PlainEngine {
            alloc,
            fleet: Fleet::new(alloc),
            bench: Bench {
                stack: Stack::new(alloc),
                spare: Curve::new(alloc),
                available: Vec::new(alloc),
                energies: Vec::new(alloc),
                kept: Shelves::new(alloc),
            },
            simulated: 0,
            detailed: 0,
        }
    }

    /// Makes a greater room where one is wanted, and the least that holds both the old one and what is asked for;
    /// with shelves where anything is to be kept.
    pub(crate) fn grow(
        &mut self,
        cells: usize,
        units: usize,
        keeps: bool,
    ) -> Result<(), OutOfMemory>
        requires cells { cells ≤ 65536 }
        requires units { units ≤ 128 }
        ensures cells { OnOk result (cells ≤ self.new.room.cells) }
        ensures units { OnOk result (units ≤ self.new.room.units) }
        ensures cells_stay { self.old.room.cells ≤ self.new.room.cells }
        ensures units_stay { self.old.room.units ≤ self.new.room.units }
        ensures least { OnOk result (self.new.room ≡ widened self.old.room cells units) }
        ensures enough { cells ≤ self.old.room.cells → units ≤ self.old.room.units → IsOk result }
        ensures err { OnErr result (self.new ≡ self.old) }
        ensures simulated { self.new.simulated ≡ self.old.simulated }
        ensures detailed { self.new.detailed ≡ self.old.detailed }
    {
        let cells_now = self.bench.spare.room();
        let units_now = self.fleet.room();
        if cells_now < cells || units_now < units {
            let cells = cells.max(cells_now);
            let units = units.max(units_now);
            let fleet = Fleet::with_room(self.alloc, units)?;
            let bench = make_bench(self.alloc, cells, units, keeps)?;
            self.fleet = fleet;
            self.bench = bench;
        }
        Ok(())
    }
}

impl SimEngine for PlainEngine {
    ghost use Rattle.std.specs.Prelude.{None};

    ghost room = { λ e. e.room };

    ghost work = { λ e. record { simulated = e.simulated; detailed = e.detailed; tape = None; runs = None } };

    fn ready(&mut self, cells: usize, units: usize) -> Result<(), OutOfMemory> {
        self.grow(cells, units, false)
    }

    fn simulate(&mut self, system: &YearSystem, config: &Config) -> Row {
        self.fleet.prepare(system, config);
        let row = run_row(system, config, &self.fleet, &mut self.bench);
        self.simulated = self.simulated.saturating_add(1);
        row
    }

    fn detail(&mut self, system: &YearSystem, config: &Config, energies: &mut [u64]) {
        self.fleet.prepare(system, config);
        run_generations(system, config, &self.fleet, &mut self.bench, energies);
        self.detailed = self.detailed.saturating_add(1);
    }
}
