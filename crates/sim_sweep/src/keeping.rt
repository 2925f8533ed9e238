//! The keys whose rows are not kept are simulated on a board, each once, and their rows kept.
ghost use Rattle.std.specs.Prelude.{◌≡◌, ℕ, ◌+◌, ◌-◌, ◌^◌, ◌<◌, ◌≤◌, ◌⊎◌, ◌↔◌, ◌++◌, All, IfOk, OnErr, OnOk, IsSome, IsTrue, Some, length, map};
ghost use Rattle.std.specs.List.Sorted.{IsPermutation};
ghost use Rattle.board_core.specs.Lists.{times};
ghost use Rattle.board_core.specs.Rows.{codes_of};
ghost use Rattle.board_core.specs.declared.row.Words.{Words};
ghost use Rattle.sim_engine.specs.Engine.{raised};
ghost use Rattle.sim_sweep.specs.Cases.{IsKept};
ghost use Rattle.sim_sweep.specs.Demands.{IsDemand, IsFilled, codes_of as demanded_codes, is_demanded, new_demands, runs_of};
ghost use Rattle.sim_sweep.specs.Keeping.{HasRows};
ghost use Rattle.sim_sweep.specs.Kept.{AreDue, CodesRise, words_in};
ghost use Rattle.sim_sweep.specs.Workers.{CanSweep, SweepsAll};
ghost use Rattle.sim_sweep.specs.Works.{HaveRun, HaveWorked};
ghost use Rattle.year_system.specs.System.{IsSystem};

use crate::demand::Demand;
use crate::due::DueRows;
use crate::kept::Kept;
use crate::sweeping::{split_for, sweep};
use crate::tally::Tally;
use board_core::{KeptRow, codes_in};
use sim_board::Board;
use sim_engine::SimEngine;
use std::alloc::Global;
use std::thread::Threads;
use wasp_fixed::OutOfMemory;
use year_system::Book;

/// The codes of the kept rows, and behind them those of the demands as they come.
fn codes_for(alloc: Global, kept: &[KeptRow], demands: &[Demand]) -> Result<Vec<u64>, OutOfMemory>
    ensures { IfOk result (λ codes. codes.items ≡ codes_of kept.now ++ demanded_codes demands.now) }
{
    let mut codes = codes_in(alloc, kept)?;
    for demand in demands {
        codes.push(demand.code)?;
    }
    Ok(codes)
}

/// Puts rows of distinct codes in rising order of code.
fn put_in_order(rows: &mut [KeptRow])
    requires { (x : ℕ) → times x (codes_of rows.old) ≤ 1 }
    ensures moved { IsPermutation rows.old rows.new }
    ensures rise { CodesRise rows.new }
{
    rows.sort_unstable_by_key(|row| row.code);
}

/// The same rows, in rising order of code.
fn in_order(mut rows: Vec<KeptRow>) -> Vec<KeptRow>
    requires { (x : ℕ) → times x (codes_of rows.items) ≤ 1 }
    ensures moved { IsPermutation rows.items result.items }
    ensures rise { CodesRise result.items }
{
    put_in_order(rows.as_mut_slice());
    rows
}

/// Sweeps the demands on a board of their own, with one worker for each engine, and answers the board's rows.
#[tactic(auto, using(crate::proofs::TogetherSteps::idle))]
fn swept_rows<E: SimEngine, R: Threads + Sync>(
    rt: &R,
    alloc: Global,
    kept: &[KeptRow],
    engines: &mut [E],
    book: &Book,
    demands: &[Demand],
    tally: &mut Tally,
) -> Result<Vec<KeptRow>, OutOfMemory>
    requires rise { CodesRise kept.now }
    requires systems { All IsSystem book.now }
    requires due { AreDue book.now kept.now }
    requires demands { All (IsDemand book.now) demands.now }
    requires few { length kept.now + length demands.now < 2 ^ 23 }
    requires some { 1 ≤ length engines.old }
    requires most { length engines.old ≤ 64 }
    requires can { All (CanSweep E.room book.now demands.now) engines.old }
    ensures rows { IfOk result (λ rows. HasRows book.now kept.now demands.now rows.items) }
    ensures swept { OnOk result (SweepsAll (record { room = E.room; work = E.work }) book.now (codes_of kept.now) demands.now tally.old tally.new engines.old engines.new) }
    ensures ran { HaveRun tally.old tally.new (map E.work engines.old) (map E.work engines.new) }
    ensures rooms { map E.room engines.new ≡ map E.room engines.old }
{
    let codes = codes_for(alloc, kept, demands)?;
    let due = DueRows::new(book);
    let (board, mut seat) = Board::start(alloc, kept, &codes, &due)?;
    let mut others = split_for(alloc, &board, &mut seat, engines.len() as u64)?;
    sweep(
        rt,
        &board,
        &mut seat,
        &mut others,
        engines,
        book,
        demands,
        tally,
    );
    let mut rows = Vec::new(alloc);
    board.collect(seat, &mut rows)?;
    Ok(rows)
}

/// Whether the row of each demand is kept.
fn are_kept(kept: &Kept, demands: &[Demand]) -> bool
    ensures { IsTrue result ↔ All (λ d. IsSome (words_in kept.now d.code)) demands.now }
{
    demands
        .iter()
        .all(|demand| kept.find(demand.code).is_some())
}

/// Simulates each demanded key whose row is not kept, once, by the engines together, and keeps its row under its code.
///
/// Each engine has room for the system of each demand; one engine makes no thread. The work is done on a board over
/// the kept and the demanded codes, together fewer than 2^23, and none is made where every demanded code is kept.
/// After want of memory the rows are as before, and the engines may have run.
pub fn keep_rows<E: SimEngine, R: Threads + Sync>(
    rt: &R,
    alloc: Global,
    kept: &mut Kept,
    engines: &mut [E],
    book: &Book,
    demands: &[Demand],
    tally: &mut Tally,
) -> Result<(), OutOfMemory>
    requires due { AreDue book.now kept.old }
    requires demands { All (IsDemand book.now) demands.now }
    requires few { length kept.old + length demands.now < 2 ^ 23 }
    requires some { 1 ≤ length engines.old }
    requires most { length engines.old ≤ 64 }
    requires can { All (CanSweep E.room book.now demands.now) engines.old }

    // Each demanded code is kept with its row, within its bounds, what was kept stays, and nothing else is kept.
    ensures filled { OnOk result (All (IsFilled book.now kept.new) demands.now) }
    ensures kept { OnOk result (All (IsKept kept.new) demands.now) }
    ensures stays { OnOk result ((code : ℕ) (words : Words) → words_in kept.old code ≡ Some words → words_in kept.new code ≡ Some words) }
    ensures only { OnOk result ((code : ℕ) → IsSome (words_in kept.new code) → IsSome (words_in kept.old code) ⊎ IsTrue (is_demanded demands.now code)) }
    ensures many { OnOk result (length kept.new ≡ length kept.old + length (new_demands kept.old demands.now)) }
    ensures due { AreDue book.now kept.new }

    // The engines simulated the new demands together, each once, and did nothing else.
    ensures worked { OnOk result (HaveWorked (runs_of book.now (new_demands kept.old demands.now)) 0 (map E.work engines.old) (map E.work engines.new)) }
    ensures tally { OnOk result (tally.new ≡ raised (length (new_demands kept.old demands.now)) tally.old) }
    ensures ran { HaveRun tally.old tally.new (map E.work engines.old) (map E.work engines.new) }
    ensures rooms { map E.room engines.new ≡ map E.room engines.old }
    ensures err_kept { OnErr result (kept.new ≡ kept.old) }
{
    // Its reading tells the proof that the book's systems are ones.
    let _systems = book.len();
    if are_kept(kept, demands) {
        return Ok(());
    }
    let rows = swept_rows(rt, alloc, kept.rows(), engines, book, demands, tally)?;
    kept.rows = in_order(rows);
    Ok(())
}
