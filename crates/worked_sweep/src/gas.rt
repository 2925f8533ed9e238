//! A year of gas units, its demands, and engines that tell their runs.
ghost use Rattle.std.specs.Prelude.{◌≡◌, ◌≤◌, [], ◌∷◌, All, IfOk, length};
ghost use Rattle.worked_sweep.specs.Trial.{HasTrialRoom, IsTrial};

use plant_data::{Config, Listed, Load, Plant, Point, Rule, Shape};
use sim_engine::{SimEngine, TapeEngine};
use sim_sweep::Demand;
use std::alloc::{AllocError, Global};
use std::test::Fail;
use wasp_fixed::OutOfMemory;
use year_system::{Book, YearSystem};

/// A one-block candidate of 100 MW, of which up to 9 are built.
const GAS: Plant = Plant {
    number: 41,
    units: 9,
    least: 100,
    full: 100,
    heat: 2000,
    inc: 2000,
    domestic: 500,
    foreign: 0,
    variable: 0,
    outage: 1000,
    repair: 0,
};

/// 100 MW all the time.
fn flat_load(alloc: Global) -> Result<Listed<Load>, AllocError>
    ensures { IfOk result (λ ls. ls ≡ record { peak = 100; shape = record { load = 0; share = 10000 } ∷ record { load = 10000; share = 10000 } ∷ [] } ∷ []) }
{
    let points = vec![in alloc;
        Point {
            load: 0,
            share: 10000
        },
        Point {
            load: 10000,
            share: 10000
        },
    ]?;
    let shape = Shape::new(points);
    let mut loads = Vec::new(alloc);
    loads.push(Load { peak: 100, shape })?;
    Ok(Listed::new(loads))
}

/// That load, and two candidates of up to 9 and 19 gas units: 200 configurations.
fn gas_year(alloc: Global) -> Result<YearSystem, AllocError> {
    let loads = flat_load(alloc)?;
    let weights = vec![in alloc; 10000u64]?;
    let thermal = vec![in alloc;
        GAS,
        Plant {
            number: 42,
            units: 19,
            ..GAS
        },
    ]?;
    Ok(YearSystem::new(
        Rule::Merit,
        loads,
        Listed::new(weights),
        Listed::new(Vec::new(alloc)),
        Listed::new(thermal),
        Listed::new(Vec::new(alloc)),
        1,
    ))
}

/// The book of that year.
pub(crate) fn gas_book(alloc: Global) -> Result<Book, OutOfMemory>
    ensures { IfOk result (λ b. 1 ≤ length b) }
{
    let mut book = Book::new(alloc);
    book.intern(gas_year(alloc)?)?;
    Ok(book)
}

/// An engine with room for the year, which tells its runs, 200 of them.
pub(crate) fn gas_engine(alloc: Global, book: &Book) -> Result<TapeEngine, OutOfMemory>
    requires { 1 ≤ length book.now }
    ensures { IfOk result (λ e. HasTrialRoom book.now e.room) }
{
    let mut systems = Vec::new(alloc);
    systems.push(gas_year(alloc)?)?;
    let mut engine = TapeEngine::new(alloc, systems, 200)?;
    let system = book.get(0);
    engine.ready(system.cells(), system.unit_limit())?;
    Ok(engine)
}

/// So many of these engines.
pub(crate) fn gas_engines(
    alloc: Global,
    book: &Book,
    count: usize,
) -> Result<Vec<TapeEngine>, OutOfMemory>
    requires { 1 ≤ length book.now }
    ensures { IfOk result (λ es. All (λ e. HasTrialRoom book.now e.room) es.items) }
{
    let mut engines = Vec::new(alloc);
    for _ in 0..count {
        engines.push(gas_engine(alloc, book)?)?;
    }
    Ok(engines)
}

/// The configuration at a place of the 200, by the first candidate's count, counted round.
pub(crate) fn config_at(k: u64) -> Config {
    let mut config = Config::zero(2);
    config.set(0, k / 20 % 10);
    config.set(1, k % 20);
    config
}

/// The demand of the configuration at a place.
pub(crate) fn demand(book: &Book, k: u64) -> Result<Demand, Fail>
    requires { 1 ≤ length book.now }
    ensures { IfOk result (IsTrial book.now) }
{
    let config = config_at(k);
    if !book.get(0).fits(&config) {
        return Err(Fail::new("a configuration of the year"));
    }
    Ok(Demand {
        code: book.code(0, &config),
        id: 0,
        config,
    })
}

/// The demands from one place to another.
pub(crate) fn demands(alloc: Global, book: &Book, from: u64, to: u64) -> Result<Vec<Demand>, Fail>
    requires { 1 ≤ length book.now }
    ensures { IfOk result (λ ds. All (IsTrial book.now) ds.items) }
{
    let mut all = Vec::new(alloc);
    for k in from..to {
        all.push(demand(book, k)?)?;
    }
    Ok(all)
}
