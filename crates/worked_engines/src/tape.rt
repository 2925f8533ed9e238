//! What an engine with a tape tells, on a year of one unit.
ghost use Rattle.std.specs.Prelude.{◌≡◌, ◌≤◌, [], ◌∷◌, IfOk};
ghost use Rattle.plant_data.specs.declared.shape.Load.{Load};
ghost use Rattle.plant_data.specs.declared.shape.Point.{Point};
ghost use Rattle.year_system.specs.System.{cells, unit_limit};

use plant_data::{Config, Listed, Load, Plant, Point, Rule, Shape};
use sim_engine::{SimEngine, TapeEngine};
use std::alloc::{AllocError, Global};
use std::test::Fail;
use wasp_fixed::OutOfMemory;
use year_system::YearSystem;

/// A candidate of one unit of 1 MW.
const GAS: Plant = Plant {
    number: 41,
    units: 1,
    least: 1,
    full: 1,
    heat: 2000,
    inc: 2000,
    domestic: 500,
    foreign: 0,
    variable: 0,
    outage: 1000,
    repair: 0,
};

/// 1 MW all the time.
fn flat_load(alloc: Global) -> Result<Listed<Load>, AllocError>
    ensures { IfOk result (λ ls. ls ≡ record { peak = 1; shape = record { load = 0; share = 10000 } ∷ record { load = 10000; share = 10000 } ∷ [] } ∷ []) }
{
    let points = vec![in alloc;
        Point {
            load: 0,
            share: 10000
        },
        Point {
            load: 10000,
            share: 10000
        },
    ]?;
    let shape = Shape::new(points);
    let mut loads = Vec::new(alloc);
    loads.push(Load { peak: 1, shape })?;
    Ok(Listed::new(loads))
}

/// That load and that candidate.
fn gas_year(alloc: Global) -> Result<YearSystem, AllocError> {
    let loads = flat_load(alloc)?;
    let weights = vec![in alloc; 10000u64]?;
    let thermal = vec![in alloc; GAS]?;
    Ok(YearSystem::new(
        Rule::Merit,
        loads,
        Listed::new(weights),
        Listed::new(Vec::new(alloc)),
        Listed::new(thermal),
        Listed::new(Vec::new(alloc)),
        1,
    ))
}

/// The configuration with this count of the first candidate.
fn counted(system: &YearSystem, count: u64) -> Config
    requires { count ≤ 128 }
{
    let mut config = Config::zero(system.width());
    config.set(0, count);
    config
}

/// One run more of an engine, and how many it tells.
fn tell(engine: &mut TapeEngine, system: &YearSystem, count: u64) -> Option<usize>
    requires count { count ≤ 128 }
    requires cells { cells system.now ≤ engine.old.room.cells }
    requires units { unit_limit system.now ≤ engine.old.room.units }
    ensures cells_stay { engine.old.room.cells ≤ engine.new.room.cells }
    ensures units_stay { engine.old.room.units ≤ engine.new.room.units }
{
    let config = counted(system, count);
    if system.fits(&config) {
        let _row = engine.simulate(system, &config);
    }
    match engine.runs() {
        Some(runs) => Some(runs.len()),
        None => None,
    }
}

/// How many runs an engine tells after each of three runs.
fn tell_each(
    engine: &mut TapeEngine,
    system: &YearSystem,
) -> Result<[Option<usize>; 3], OutOfMemory> {
    engine.ready(system.cells(), system.unit_limit())?;
    let first = tell(engine, system, 0);
    let second = tell(engine, system, 1);
    let third = tell(engine, system, 0);
    Ok([first, second, third])
}

/// An engine whose tape has the one system and two places.
fn taped(alloc: Global) -> Result<TapeEngine, OutOfMemory> {
    let systems = vec![in alloc; gas_year(alloc)?]?;
    TapeEngine::new(alloc, systems, 2)
}

/// How many runs of a system a new engine with a tape tells after each of three runs.
fn tell_new(alloc: Global, system: &YearSystem) -> Result<[Option<usize>; 3], OutOfMemory> {
    let mut engine = taped(alloc)?;
    tell_each(&mut engine, system)
}

#[test]
fn a_tape_with_two_places_tells_two_runs(rt: HostRuntime) -> Result<(), Fail> {
    let system = gas_year(rt.alloc())?;
    let told = tell_new(rt.alloc(), &system)?;
    assert_eq!(rt; told, [Some(1), Some(2), None]);
    Ok(())
}
