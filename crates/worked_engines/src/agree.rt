//! Both engines answer alike.
ghost use Rattle.std.specs.Prelude.{◌≡◌, ◌≤◌, OnOk};
ghost use Rattle.year_system.specs.System.{cells, unit_limit};

use crate::decks::last_year;
use plant_data::{Config, Row};
use sim_engine::{PlainEngine, SimEngine, StackEngine};
use std::alloc::{AllocError, Global};
use std::test::Fail;
use year_system::YearSystem;

/// The configurations of a system whose four candidates have two, two, one and one at most.
const CONFIGS: u64 = 36;

/// Puts a count in the place of a candidate, if the configuration has the place.
fn put(config: &mut Config, k: usize, count: u64) {
    if k < config.width() && count <= 128 {
        config.set(k, count);
    }
}

/// The configuration with a number.
fn numbered(system: &YearSystem, n: u64) -> Config {
    let mut config = Config::zero(system.width());
    put(&mut config, 0, n / 12);
    put(&mut config, 1, n / 4 % 3);
    put(&mut config, 2, n / 2 % 2);
    put(&mut config, 3, n % 2);
    config
}

/// The row and the generations of a configuration, if the system has it.
fn answer<E: SimEngine>(
    alloc: Global,
    engine: &mut E,
    system: &YearSystem,
    config: &Config,
) -> Result<Option<(Row, Vec<u64>)>, AllocError>
    requires cells { cells system.now ≤ (E.room engine.old).cells }
    requires units { unit_limit system.now ≤ (E.room engine.old).units }
    ensures room { E.room engine.new ≡ E.room engine.old }
{
    if !system.fits(config) {
        return Ok(None);
    }
    let places = system.existing().len() + system.thermal().len() + system.groups().len();
    let mut energies = vec![in alloc; 0u64; places]?;
    let row = engine.simulate(system, config);
    engine.detail(system, config, energies.as_mut_slice());
    Ok(Some((row, energies)))
}

/// Whether the system has the configuration with a number, and both engines answer alike for it.
fn are_alike<P: SimEngine, F: SimEngine>(
    alloc: Global,
    plain: &mut P,
    fast: &mut F,
    system: &YearSystem,
    n: u64,
) -> Result<bool, AllocError>
    requires plain_cells { cells system.now ≤ (P.room plain.old).cells }
    requires plain_units { unit_limit system.now ≤ (P.room plain.old).units }
    requires fast_cells { cells system.now ≤ (F.room fast.old).cells }
    requires fast_units { unit_limit system.now ≤ (F.room fast.old).units }
    ensures plain { P.room plain.new ≡ P.room plain.old }
    ensures fast { F.room fast.new ≡ F.room fast.old }
{
    let config = numbered(system, n);
    let one = answer(alloc, plain, system, &config)?;
    let other = answer(alloc, fast, system, &config)?;
    Ok(one.is_some() && one == other)
}

/// How many configurations, of those of two systems in turn, both engines answer alike.
fn count_alike<P: SimEngine, F: SimEngine>(
    alloc: Global,
    plain: &mut P,
    fast: &mut F,
    first: &YearSystem,
    second: &YearSystem,
) -> Result<u64, AllocError>
    requires plain_first { (cells first.now ≤ (P.room plain.old).cells) × (unit_limit first.now ≤ (P.room plain.old).units) }
    requires plain_second { (cells second.now ≤ (P.room plain.old).cells) × (unit_limit second.now ≤ (P.room plain.old).units) }
    requires fast_first { (cells first.now ≤ (F.room fast.old).cells) × (unit_limit first.now ≤ (F.room fast.old).units) }
    requires fast_second { (cells second.now ≤ (F.room fast.old).cells) × (unit_limit second.now ≤ (F.room fast.old).units) }
{
    let mut count = 0u64;
    for n in 0..CONFIGS {
        let one = are_alike(alloc, plain, fast, first, n)?;
        let other = are_alike(alloc, plain, fast, second, n)?;
        count = count.wrapping_add(one as u64).wrapping_add(other as u64);
    }
    Ok(count)
}

/// Makes room for a system in an engine.
fn make_room<E: SimEngine>(engine: &mut E, system: &YearSystem) -> Result<(), AllocError>
    ensures cells { OnOk result (cells system.now ≤ (E.room engine.new).cells) }
    ensures units { OnOk result (unit_limit system.now ≤ (E.room engine.new).units) }
    ensures cells_stay { (E.room engine.old).cells ≤ (E.room engine.new).cells }
    ensures units_stay { (E.room engine.old).units ≤ (E.room engine.new).units }
{
    let (cells, units) = (system.cells(), system.unit_limit());
    let Ok(()) = engine.ready(cells, units) else {
        return Err(AllocError);
    };
    Ok(())
}

/// Makes room for two systems in an engine.
fn make_both<E: SimEngine>(
    engine: &mut E,
    first: &YearSystem,
    second: &YearSystem,
) -> Result<(), AllocError>
    ensures first { OnOk result ((cells first.now ≤ (E.room engine.new).cells) × (unit_limit first.now ≤ (E.room engine.new).units)) }
    ensures second { OnOk result ((cells second.now ≤ (E.room engine.new).cells) × (unit_limit second.now ≤ (E.room engine.new).units)) }
{
    make_room(engine, first)?;
    make_room(engine, second)
}

/// How many configurations of two systems in turn two engines answer alike, once they have room.
fn run<P: SimEngine + Drop, F: SimEngine + Drop>(
    alloc: Global,
    mut plain: P,
    mut fast: F,
    first: &YearSystem,
    second: &YearSystem,
) -> Result<u64, AllocError> {
    make_both(&mut plain, first, second)?;
    make_both(&mut fast, first, second)?;
    count_alike(alloc, &mut plain, &mut fast, first, second)
}

/// How many configurations of two systems in turn a plain and a fast engine answer alike.
fn run_new(alloc: Global, first: &YearSystem, second: &YearSystem) -> Result<u64, AllocError> {
    run(
        alloc,
        PlainEngine::new(alloc),
        StackEngine::new(alloc),
        first,
        second,
    )
}

/// How many configurations of a system and of a deck's both engines answer alike, each in turn.
fn run_with(alloc: Global, first: &YearSystem, second: &str) -> Result<u64, AllocError> {
    match last_year(alloc, second)? {
        Some(system) => run_new(alloc, first, &system),
        None => Ok(0),
    }
}

/// How many configurations of two decks both engines answer alike, each deck's in turn.
fn run_pair(alloc: Global, first: &str, second: &str) -> Result<u64, AllocError> {
    match last_year(alloc, first)? {
        Some(system) => run_with(alloc, &system, second),
        None => Ok(0),
    }
}

/// Whether both engines answer alike for all configurations of the base deck after edits, each in turn with one of
/// the base deck itself.
fn agree(alloc: Global, edits: &str) -> Result<bool, AllocError> {
    Ok(run_pair(alloc, edits, "")? == 2 * CONFIGS)
}

#[test]
fn in_the_order_of_cost(rt: HostRuntime) -> Result<(), Fail> {
    assert!(rt; agree(rt.alloc(), "")?);
    Ok(())
}

#[test]
fn with_base_blocks_first(rt: HostRuntime) -> Result<(), Fail> {
    assert!(rt; agree(rt.alloc(), "RULE BASE")?);
    Ok(())
}

#[test]
fn with_a_dear_peak_block_behind_other_units(rt: HostRuntime) -> Result<(), Fail> {
    let edits = "PLANT 1 OLD 3 20 60 2400 9000 1 0 200 500 600";
    assert!(rt; agree(rt.alloc(), edits)?);
    Ok(())
}

#[test]
fn without_maintenance(rt: HostRuntime) -> Result<(), Fail> {
    let edits =
        "PLANT 1 OLD 3 20 60 2400 2200 1 0 200 500 0;PLANT 2 COAL 2 40 80 2500 2300 1 0 200 600 0";
    assert!(rt; agree(rt.alloc(), edits)?);
    Ok(())
}

#[test]
fn with_units_that_are_always_out_and_never(rt: HostRuntime) -> Result<(), Fail> {
    let edits =
        "PLANT 1 OLD 3 20 60 2400 2200 1 0 200 10000 0;PLANT 2 COAL 2 40 80 2500 2300 1 0 200 0 0";
    assert!(rt; agree(rt.alloc(), edits)?);
    Ok(())
}

#[test]
fn on_a_grid_of_20_with_128_units(rt: HostRuntime) -> Result<(), Fail> {
    let edits = "GRID 20;PLANT 1 OLD 122 20 40 2400 2200 1 0 200 500 600;LOAD 1 2000 1 1800 1";
    assert!(rt; agree(rt.alloc(), edits)?);
    Ok(())
}
