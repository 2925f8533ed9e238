//! The engine that keeps curves from one run to the next.
ghost use Rattle.std.specs.Prelude.{◌≡◌, ℕ, ◌+◌, ◌≤◌, ◌<◌, [], length, IfOk, IsOk, OnOk, OnErr, None};
ghost use Rattle.sim_engine.specs.Engine.{no_room, widened};

use crate::engine::SimEngine;
use crate::plain::PlainEngine;
use plant_data::{Config, Row};
use std::alloc::Global;
use std::marker::Model;
use wasp_fixed::OutOfMemory;
use year_system::YearSystem;

/// An engine that keeps, for each period and hydro condition, the load and the curves behind beginnings of the list
/// of units, and begins the next configuration's list with the longest of them. It takes at most 64 MB.
#[derive(Drop)]
pub struct StackEngine {
    plain: PlainEngine,
}

impl Model for StackEngine {
    ghost use Rattle.sim_engine.specs.Engine.{PlainView};

    ghost Value = { PlainView };

    ghost view = { λ e. e.plain };
}

impl StackEngine {
    /// An engine with no room and no runs, which takes no memory and tells no runs.
    pub fn new(alloc: Global) -> StackEngine
        ensures { result ≡ record { room = no_room; simulated = 0; detailed = 0 } }
    {
        StackEngine {
            plain: PlainEngine::new(alloc),
        }
    }
}

impl SimEngine for StackEngine {
    ghost use Rattle.std.specs.Prelude.{None};

    ghost room = { λ e. e.room };

    ghost work = { λ e. record { simulated = e.simulated; detailed = e.detailed; tape = None; runs = None } };

    fn ready(&mut self, cells: usize, units: usize) -> Result<(), OutOfMemory> {
        self.plain.grow(cells, units, true)
    }

    fn simulate(&mut self, system: &YearSystem, config: &Config) -> Row {
        self.plain.simulate(system, config)
    }

    fn detail(&mut self, system: &YearSystem, config: &Config, energies: &mut [u64]) {
        self.plain.detail(system, config, energies)
    }
}
