//! Demands that are swept by several engines.
ghost use Rattle.std.specs.Prelude.{◌≤◌, All, length};
ghost use Rattle.sim_sweep.specs.Kept.{AreDue};
ghost use Rattle.worked_sweep.specs.Trial.{HasTrialRoom, IsTrial};

use crate::gas::{demands, gas_book, gas_engines};
use plant_data::Config;
use sim_engine::TapeEngine;
use sim_sweep::{Demand, Kept, Tally, keep_rows};
use std::alloc::{AllocError, Global};
use std::test::Fail;
use std::thread::Threads;
use year_system::Book;

/// Keeps the rows of demands of the year, by all engines.
fn keep_all<R: Threads + Sync>(
    rt: &R,
    alloc: Global,
    kept: &mut Kept,
    engines: &mut [TapeEngine],
    book: &Book,
    demands: &[Demand],
    tally: &mut Tally,
) -> Result<(), Fail>
    requires room { All (λ e. HasTrialRoom book.now e.room) engines.old }
    requires due { AreDue book.now kept.old }
    requires demands { All (IsTrial book.now) demands.now }
    ensures due { AreDue book.now kept.new }
{
    if kept.len() > 1000 || demands.len() > 1000 || engines.len() == 0 || engines.len() > 64 {
        return Err(Fail::new("a small sweep"));
    }
    keep_rows(rt, alloc, kept, engines, book, demands, tally)?;
    Ok(())
}

/// The place of a configuration among the 200.
fn place_of(config: &Config) -> usize {
    if config.width() != 2 {
        return 200;
    }
    (config.get(0) * 20 + config.get(1)) as usize
}

/// Adds 1 at the place of each run that an engine tells.
fn mark(engine: &TapeEngine, marks: &mut [u64]) {
    let Some(runs) = engine.runs() else {
        return;
    };
    for run in runs {
        if let Some(mark) = marks.get_mut(place_of(&run.config)) {
            *mark = mark.saturating_add(1);
        }
    }
}

/// How many marks lie from one number to another.
fn marked(marks: &[u64], low: u64, high: u64) -> u64 {
    let mut count = 0u64;
    for mark in marks {
        if low <= *mark && *mark <= high {
            count = count.saturating_add(1);
        }
    }
    count
}

/// How many configurations, so many places in all, the engines told together, and how many of them once.
fn told(alloc: Global, engines: &[TapeEngine], places: usize) -> Result<(u64, u64), AllocError> {
    let mut marks = vec![in alloc; 0u64; places]?;
    for engine in engines {
        mark(engine, &mut marks);
    }
    Ok((marked(&marks, 1, u64::MAX), marked(&marks, 1, 1)))
}

/// Whether the same rows are kept.
fn same_rows(one: &Kept, other: &Kept) -> bool {
    let rows = one.rows();
    let others = other.rows();
    rows.len() == others.len()
        && rows.iter().zip(others).all(|(row, other)| {
            row.code == other.code && row.words.to_array() == other.words.to_array()
        })
}

/// What a sweep by new engines did: rows filled, rows kept then, configurations told, and those told once.
#[derive(Debug, PartialEq, Eq, Clone, Copy)]
struct Outcome {
    filled: u64,
    kept: u64,
    told: u64,
    once: u64,
}

/// Sweeps the demands from one place to another with so many new engines.
fn sweep_with<R: Threads + Sync>(
    rt: &R,
    alloc: Global,
    kept: &mut Kept,
    book: &Book,
    count: usize,
    to: u64,
) -> Result<Outcome, Fail>
    requires book { 1 ≤ length book.now }
    requires due { AreDue book.now kept.old }
    ensures due { AreDue book.now kept.new }
{
    let asked = demands(alloc, book, 0, to)?;
    let mut engines = gas_engines(alloc, book, count)?;
    let mut tally = Tally::new();
    keep_all(
        rt,
        alloc,
        kept,
        engines.as_mut_slice(),
        book,
        &asked,
        &mut tally,
    )?;
    let (told, once) = told(alloc, &engines, 200)?;
    Ok(Outcome {
        filled: tally.filled(),
        kept: kept.len(),
        told,
        once,
    })
}

/// The rows of all 200 configurations, demanded three times over, by so many engines.
fn swept<R: Threads + Sync>(rt: &R, alloc: Global, count: usize) -> Result<(Kept, Outcome), Fail> {
    let book = gas_book(alloc)?;
    let mut kept = Kept::empty(alloc);
    let did = sweep_with(rt, alloc, &mut kept, &book, count, 600)?;
    Ok((kept, did))
}

#[test]
fn eight_engines_simulate_each_of_200_keys_once_and_keep_what_one_engine_keeps(
    rt: HostRuntime,
) -> Result<(), Fail> {
    let all = Outcome {
        filled: 200,
        kept: 200,
        told: 200,
        once: 200,
    };
    let (eight, did) = swept(&rt, rt.alloc(), 8)?;
    assert_eq!(rt; did, all);
    let (one, did) = swept(&rt, rt.alloc(), 1)?;
    assert_eq!(rt; did, all);
    assert!(rt; same_rows(&eight, &one));
    Ok(())
}

#[test]
fn kept_keys_are_not_simulated_again(rt: HostRuntime) -> Result<(), Fail> {
    let book = gas_book(rt.alloc())?;
    let mut kept = Kept::empty(rt.alloc());
    let first = sweep_with(&rt, rt.alloc(), &mut kept, &book, 2, 3)?;
    assert_eq!(rt; (first.filled, first.kept, first.told), (3, 3, 3));
    let second = sweep_with(&rt, rt.alloc(), &mut kept, &book, 2, 5)?;
    assert_eq!(rt; (second.filled, second.kept, second.told), (2, 5, 2));
    Ok(())
}

#[test]
fn sixty_four_engines_over_three_codes_end(rt: HostRuntime) -> Result<(), Fail> {
    let book = gas_book(rt.alloc())?;
    let mut kept = Kept::empty(rt.alloc());
    let did = sweep_with(&rt, rt.alloc(), &mut kept, &book, 64, 3)?;
    assert_eq!(rt; (did.filled, did.kept), (3, 3));
    Ok(())
}
