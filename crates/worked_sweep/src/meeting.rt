//! Engines that wait for each other: workers are inside `simulate` at the same time.
ghost use Rattle.std.specs.Prelude.{◌≡◌, ◌≤◌, All, IfOk, length};
ghost use Rattle.worked_sweep.specs.Trial.{HasTrialRoom, IsTrial};

use crate::gas::{demands, gas_book};
use plant_data::{Config, Row};
use sim_engine::{PlainEngine, SimEngine};
use sim_sweep::{Demand, Kept, Tally, keep_rows};
use std::alloc::Global;
use std::sync::Arc;
use std::sync::atomic::{AtomicU64, Ordering};
use std::test::Fail;
use std::thread::Threads;
use wasp_fixed::OutOfMemory;
use year_system::{Book, YearSystem};

/// The most turns of a wait.
const MOST_TURNS: u64 = 50_000_000;

/// A plain engine whose first run begins only once so many engines are in theirs, or its wait has come to the limit.
#[derive(Drop)]
struct MeetingEngine {
    engine: PlainEngine,
    inside: Arc<AtomicU64, Global>,
    wanted: u64,
    came: bool,
    met: bool,
}

impl MeetingEngine {
    /// Comes to the meeting, once, and waits for the others.
    fn meet(&mut self)
        ensures { self.new.engine ≡ self.old.engine }
    {
        if self.came {
            return;
        }
        self.came = true;
        self.inside.fetch_add(1, Ordering::SeqCst);
        for _ in 0..MOST_TURNS {
            if self.wanted <= self.inside.load(Ordering::SeqCst) {
                self.met = true;
                return;
            }
        }
    }
}

impl SimEngine for MeetingEngine {
    ghost use Rattle.std.specs.Prelude.{None};

    ghost room = { λ e. e.engine.room };

    ghost work = { λ e. record { simulated = e.engine.simulated; detailed = e.engine.detailed; tape = None; runs = None } };

    fn ready(&mut self, cells: usize, units: usize) -> Result<(), OutOfMemory> {
        self.engine.ready(cells, units)
    }

    fn simulate(&mut self, system: &YearSystem, config: &Config) -> Row {
        self.meet();
        self.engine.simulate(system, config)
    }

    fn detail(&mut self, system: &YearSystem, config: &Config, energies: &mut [u64]) {
        self.engine.detail(system, config, energies);
    }
}

/// An engine with room for the year, for a meeting of so many.
fn meeting_engine(
    alloc: Global,
    book: &Book,
    inside: &Arc<AtomicU64, Global>,
    wanted: u64,
) -> Result<MeetingEngine, Fail>
    requires { 1 ≤ length book.now }
    ensures { IfOk result (λ e. HasTrialRoom book.now e.engine.room) }
{
    let mut engine = PlainEngine::new(alloc);
    let system = book.get(0);
    engine.ready(system.cells(), system.unit_limit())?;
    Ok(MeetingEngine {
        engine,
        inside: Arc::try_clone(inside)?,
        wanted,
        came: false,
        met: false,
    })
}

/// So many of them.
fn meeting_engines(alloc: Global, book: &Book, count: u64) -> Result<Vec<MeetingEngine>, Fail>
    requires { 1 ≤ length book.now }
    ensures { IfOk result (λ es. All (λ e. HasTrialRoom book.now e.engine.room) es.items) }
{
    let inside = Arc::new(alloc, AtomicU64::new(0))?;
    let mut engines = Vec::new(alloc);
    for _ in 0..count {
        engines.push(meeting_engine(alloc, book, &inside, count)?)?;
    }
    Ok(engines)
}

/// Sweeps demands of the year by all engines.
fn sweep_all<R: Threads + Sync>(
    rt: &R,
    alloc: Global,
    engines: &mut [MeetingEngine],
    book: &Book,
    demands: &[Demand],
) -> Result<u64, Fail>
    requires room { All (λ e. HasTrialRoom book.now e.engine.room) engines.old }
    requires demands { All (IsTrial book.now) demands.now }
{
    if demands.len() > 1000 || engines.len() == 0 || engines.len() > 64 {
        return Err(Fail::new("a small sweep"));
    }
    let mut kept = Kept::empty(alloc);
    let mut tally = Tally::new();
    keep_rows(rt, alloc, &mut kept, engines, book, demands, &mut tally)?;
    Ok(tally.filled())
}

/// How many of so many engines met the others in their first run, and how many rows they filled together.
fn met_by<R: Threads + Sync>(rt: &R, alloc: Global, count: u64) -> Result<(usize, u64), Fail> {
    let book = gas_book(alloc)?;
    let asked = demands(alloc, &book, 0, 200)?;
    let mut engines = meeting_engines(alloc, &book, count)?;
    let filled = sweep_all(rt, alloc, engines.as_mut_slice(), &book, &asked)?;
    let met = engines
        .as_slice()
        .iter()
        .filter(|engine: &&MeetingEngine| engine.met)
        .count();
    Ok((met, filled))
}

#[test]
fn two_workers_are_inside_simulate_at_once(rt: HostRuntime) -> Result<(), Fail> {
    assert_eq!(rt; met_by(&rt, rt.alloc(), 2)?, (2, 200));
    Ok(())
}

#[test]
fn four_engines_each_simulate_something(rt: HostRuntime) -> Result<(), Fail> {
    assert_eq!(rt; met_by(&rt, rt.alloc(), 4)?, (4, 200));
    Ok(())
}
