//! A shelf that knows what its load was made from.
ghost use Rattle.std.specs.Prelude.{◌≡◌, ℕ, ◌+◌, ◌*◌, ◌<◌, ◌≤◌, ◌^◌, [], length, take, All, IfOk, IfSome, IsTrue, sum};
ghost use Rattle.wasp_fixed.specs.Curves.{cell};
ghost use Rattle.year_system.specs.System.{Fits};
ghost use Rattle.sim_engine.specs.Curves.{load_cells, thermal_load};
ghost use Rattle.sim_engine.specs.Laid.{period_with};
ghost use Rattle.sim_engine.specs.Loading.{cells_in, energies, lolp, unserved};

use crate::laying::Laying;
use crate::load_key::LoadKey;
use crate::period::Missing;
use crate::turn_period::{match_load, run_turns};
use crate::water::fill_thermal_load;
use convolution::Curve;
use loading_order::Block;
use plant_data::Config;
use sim_fast::{CurveShelf, Turn, Workbench};
use std::alloc::Global;
use std::marker::Model;
use wasp_fixed::{M, ONE, OutOfMemory};
use year_system::YearSystem;

/// A shelf that knows what its load was made from, so that an equal load is not made again.
#[derive(Drop)]
pub struct KeyedShelf {
    key: LoadKey,
    shelf: CurveShelf,
}

impl Model for KeyedShelf {
    ghost use Rattle.std.specs.Prelude.{◌≡◌, ◌<◌};
    ghost use Rattle.wasp_fixed.specs.Curves.{cell};
    ghost use Rattle.sim_engine.specs.LoadData.{load_from};
    ghost use Rattle.sim_fast.specs.Turns.{ShelfView};

    ghost Value = { ShelfView };

    ghost view = { λ k. k.shelf };

    ghost invariant = { λ k. 0 < k.key.step → cell k.shelf.load ≡ load_from k.key };
}

impl KeyedShelf {
    /// A shelf with room for `cells` cells, at most 65,536, that keeps `count` beginnings, and no load yet. Errors:
    /// want of memory.
    pub fn with_room(alloc: Global, cells: usize, count: usize) -> Result<KeyedShelf, OutOfMemory>
        requires { cells ≤ 65536 }
        ensures { IfOk result (λ k. k ≡ record { load = []; room = cells }) }
    {
        Ok(KeyedShelf {
            key: LoadKey::new(),
            shelf: CurveShelf::with_room(alloc, cells, count)?,
        })
    }

    /// Makes the load that for the thermal units in a period under a condition, in a curve to spare where it is not
    /// that yet, and answers whether it is: not where there is no room, or where the load would rise.
    pub fn take_load(
        &mut self,
        system: &YearSystem,
        config: &Config,
        period: usize,
        condition: usize,
        spare: &mut Curve,
    ) -> bool
        requires fits { Fits system.now config.now }
        requires period { period < length system.now.loads }
        requires condition { condition < length system.now.weights }
        requires room { load_cells system.now period ≤ spare.old.room }
        ensures value { IsTrue result → cell self.new.load ≡ thermal_load system.now config.now period condition }
        ensures room { self.new.room ≡ self.old.room }
        ensures spare { spare.new.room ≡ spare.old.room }
    {
        // Called for its clause: the system is one.
        let _step = system.step();
        if self.key.is_of(system, config, period, condition) {
            return true;
        }
        self.key.clear();
        fill_thermal_load(system, config, period, condition, spare);
        if !match_load(&mut self.shelf, spare.as_slice()) {
            return false;
        }
        self.key.set(system, config, period, condition);
        true
    }

    /// Runs a period with the load, of at most `top` cells, and writes the energies of its blocks, which are laid. It
    /// answers none where there is no room.
    pub fn run(
        &mut self,
        workbench: &mut Workbench,
        laying: &Laying,
        turns: &mut [Turn],
        blocks: &[Block],
        available: &[u64],
        top: u64,
        step: u64,
        hours: u64,
        room: &mut [u64],
    ) -> Option<Missing>
        requires laid { laying.now.blocks ≡ blocks.now }
        requires laid_step { laying.now.step ≡ step }
        requires units { All (λ b. b.unit < length available.now) blocks.now }
        requires available { All (λ a. a ≤ M) available.now }
        requires top { top ≤ 65536 }
        requires step { 1 ≤ step }
        requires hours { step * hours ≤ 175200 }
        requires cells { cells_in step blocks.now ≤ 65536 }
        requires room { length blocks.now ≤ length room.old }
        ensures energies { IfSome result (λ m. take (length blocks.now) room.new ≡ energies (period_with (cell self.old.load) blocks.now available.now top step hours)) }
        ensures bounded { IfSome result (λ m. All (λ e. e < 2 ^ 40) (take (length blocks.now) room.new)) }
        ensures total { IfSome result (λ m. sum (take (length blocks.now) room.new) ≤ cells_in step blocks.now * (step * hours)) }
        ensures lolp { IfSome result (λ m. m.lolp ≡ lolp (period_with (cell self.old.load) blocks.now available.now top step hours)) }
        ensures unserved { IfSome result (λ m. m.unserved ≡ unserved (period_with (cell self.old.load) blocks.now available.now top step hours)) }
        ensures small { IfSome result (λ m. m.lolp ≤ ONE) }
        ensures most { IfSome result (λ m. m.unserved ≤ top * (step * hours)) }
        ensures shelf { self.new ≡ self.old }
    {
        run_turns(
            &mut self.shelf,
            workbench,
            laying,
            turns,
            blocks,
            available,
            top,
            step,
            hours,
            room,
        )
    }
}
