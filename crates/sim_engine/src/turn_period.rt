//! A period under a hydro condition, whose load stands on a shelf.
ghost use Rattle.std.specs.Prelude.{◌≡◌, ℕ, ◌+◌, ◌*◌, ◌<◌, ◌≤◌, ◌/◌, ◌^◌, length, take, All, IfSome, IsTrue, sum};
ghost use Rattle.wasp_fixed.specs.Curves.{area, cell, IsAtMostOne};
ghost use Rattle.sim_engine.specs.Loading.{cells_in, energies, lolp, unserved};
ghost use Rattle.sim_fast.specs.Turns.{StandsAt};
ghost use Rattle.sim_fast.specs.declared.turn.TheConstants.{MAX_UNITS};
ghost use Rattle.sim_engine.specs.Laid.{IsLaid, period_with};

use crate::lay::Mark;
use crate::laying::Laying;
use crate::period::Missing;
use crate::turn_energies::write_energies;
use loading_order::Block;
use sim_fast::{CurveShelf, MAX_UNITS, Turn, Workbench, never_rises, run_list};
use wasp_fixed::{M, ONE, mul_div_floor};

/// What is not served behind the units that stand on a bench.
fn left_behind(workbench: &Workbench, top: u64, step_hours: u64) -> Missing
    requires top { top ≤ 65536 }
    requires hours { step_hours ≤ 175200 }
    ensures lolp { result.lolp ≡ cell workbench.now.cells 0 }
    ensures unserved { result.unserved ≡ area (cell workbench.now.cells) 0 top * step_hours / ONE }
    ensures small { result.lolp ≤ ONE }
    ensures most { result.unserved ≤ top * step_hours }
{
    let area = workbench.curve().area(0, top);
    Missing {
        lolp: workbench.curve().first(),
        unserved: mul_div_floor(area, step_hours, ONE),
    }
}

/// Loads laid turns onto the load of a shelf, and writes the energies of their blocks.
fn load_turns(
    shelf: &mut CurveShelf,
    workbench: &mut Workbench,
    turns: &[Turn],
    marks: &[Mark],
    blocks: &[Block],
    available: &[u64],
    step: u64,
    hours: u64,
    room: &mut [u64],
)
    requires laid { IsLaid step available.now blocks.now (length blocks.now) turns.now marks.now }
    requires few { length turns.now ≤ MAX_UNITS }
    requires rooms { shelf.old.room ≡ workbench.old.room }
    requires places { MAX_UNITS ≤ workbench.old.places }
    requires marks { length blocks.now ≤ length marks.now }
    requires units { All (λ b. b.unit < length available.now) blocks.now }
    requires available { All (λ a. a ≤ M) available.now }
    requires step { 1 ≤ step }
    requires hours { step * hours ≤ 175200 }
    requires cells { cells_in step blocks.now ≤ 65536 }
    requires room { length blocks.now ≤ length room.old }
    ensures energies { (top : ℕ) → take (length blocks.now) room.new ≡ energies (period_with (cell shelf.old.load) blocks.now available.now top step hours) }
    ensures bounded { All (λ e. e < 2 ^ 40) (take (length blocks.now) room.new) }
    ensures total { sum (take (length blocks.now) room.new) ≤ cells_in step blocks.now * (step * hours) }
    ensures stands { StandsAt (cell shelf.old.load) turns.now (length turns.now) workbench.new }
    ensures shelf { shelf.new ≡ shelf.old }
    ensures bench_room { workbench.new.room ≡ workbench.old.room }
    ensures bench_places { workbench.new.places ≡ workbench.old.places }
{
    let _small = shelf.len();
    run_list(shelf, turns, workbench);
    write_energies(
        blocks,
        marks,
        available,
        workbench.lower(),
        workbench.upper(),
        step,
        hours,
        room,
    );
}

/// Whether there is room for so many units.
fn has_room(shelf: &CurveShelf, workbench: &Workbench, turns: &[Turn], units: usize) -> bool
    ensures rooms { IsTrue result → shelf.now.room ≡ workbench.now.room }
    ensures places { IsTrue result → MAX_UNITS ≤ workbench.now.places }
    ensures turns { IsTrue result → units ≤ length turns.now }
    ensures few { IsTrue result → units ≤ MAX_UNITS }
{
    shelf.room() == workbench.room()
        && workbench.places() >= MAX_UNITS
        && turns.len() >= units
        && units <= MAX_UNITS
}

/// Runs a period whose load, of at most `top` cells, stands on a shelf, and writes the energies of its blocks, which
/// are laid. It answers none where there is no room.
pub fn run_turns(
    shelf: &mut CurveShelf,
    workbench: &mut Workbench,
    laying: &Laying,
    turns: &mut [Turn],
    blocks: &[Block],
    available: &[u64],
    top: u64,
    step: u64,
    hours: u64,
    room: &mut [u64],
) -> Option<Missing>
    requires laid { laying.now.blocks ≡ blocks.now }
    requires laid_step { laying.now.step ≡ step }
    requires units { All (λ b. b.unit < length available.now) blocks.now }
    requires available { All (λ a. a ≤ M) available.now }
    requires top { top ≤ 65536 }
    requires step { 1 ≤ step }
    requires hours { step * hours ≤ 175200 }
    requires cells { cells_in step blocks.now ≤ 65536 }
    requires room { length blocks.now ≤ length room.old }
    ensures energies { IfSome result (λ m. take (length blocks.now) room.new ≡ energies (period_with (cell shelf.old.load) blocks.now available.now top step hours)) }
    ensures bounded { IfSome result (λ m. All (λ e. e < 2 ^ 40) (take (length blocks.now) room.new)) }
    ensures total { IfSome result (λ m. sum (take (length blocks.now) room.new) ≤ cells_in step blocks.now * (step * hours)) }
    ensures lolp { IfSome result (λ m. m.lolp ≡ lolp (period_with (cell shelf.old.load) blocks.now available.now top step hours)) }
    ensures unserved { IfSome result (λ m. m.unserved ≡ unserved (period_with (cell shelf.old.load) blocks.now available.now top step hours)) }
    ensures small { IfSome result (λ m. m.lolp ≤ ONE) }
    ensures most { IfSome result (λ m. m.unserved ≤ top * (step * hours)) }
    ensures shelf { shelf.new ≡ shelf.old }
{
    let count = laying.len();
    if !has_room(shelf, workbench, turns, count) {
        return None;
    }
    laying.write(available, turns);
    load_turns(
        shelf,
        workbench,
        &turns[..count],
        laying.marks(),
        blocks,
        available,
        step,
        hours,
        room,
    );
    Some(left_behind(workbench, top, step * hours))
}

/// Puts a load on a shelf, if it is not there and there is room, and answers whether it is there.
pub fn match_load(shelf: &mut CurveShelf, load: &[u32]) -> bool
    requires small { IsAtMostOne (cell load.now) }
    ensures value { IsTrue result → (x : ℕ) → cell shelf.new.load x ≡ cell load.now x }
    ensures room { shelf.new.room ≡ shelf.old.room }
{
    if shelf.has_load(load) {
        return true;
    }
    if load.len() > shelf.room() || !never_rises(load) {
        return false;
    }
    shelf.set_load(load);
    true
}
