//! Tables that are solved at once, in threads.
ghost use Rattle.std.specs.Prelude.{◌≡◌, ℕ, ◌<◌, ◌≤◌, IfOk, length, map, slice_index_or};
ghost use Rattle.cost_terms.specs.Table.{Table};
ghost use Rattle.sim_sweep.specs.Cases.{Done};
ghost use Rattle.sim_sweep.specs.Solves.{Solves};
ghost use Rattle.sim_sweep.specs.declared.solving.Solving.{Solving as Case};
ghost use Rattle.sim_sweep.specs.declared.solving.Solving.TheVariants as variants;

use crate::case::CaseDone;
use crate::settling::solve_table;
use cost_terms::CaseTable;
use std::alloc::{AllocError, Global};
use std::thread::Threads;
use std::{mem, thread};
use wasp_fixed::OutOfMemory;

/// A case on its way.
#[derive(Drop)]
pub(crate) enum Solving {
    Waits(CaseTable),
    Solved(CaseDone),
    /// Memory was wanting.
    Wanting,
}

/// Solves a case that waits.
fn solve_one(alloc: Global, case: &mut Solving)
    ensures { Solves case.old case.new }
{
    if let Solving::Waits(table) = mem::replace(case, Solving::Wanting) {
        if let Ok(done) = solve_table(alloc, table) {
            *case = Solving::Solved(done);
        }
    }
}

/// Solves the cases that wait, in at most so many threads.
fn solve_waiting<R: Threads + Sync>(rt: &R, alloc: Global, workers: usize, cases: &mut [Solving])
    requires workers { 1 ≤ workers }
    ensures count { length cases.new ≡ length cases.old }
    ensures solved { (k : ℕ) (d : Case) → k < length cases.old
        → Solves (slice_index_or cases.old k d) (slice_index_or cases.new k d) }
{
    thread::for_each_mut(rt, cases, workers, &|_, case| solve_one(alloc, case));
}

/// The tables as cases that wait.
fn waiting(alloc: Global, mut tables: Vec<CaseTable>) -> Result<Vec<Solving>, AllocError>
    ensures { IfOk result (λ cases. cases.items ≡ map (λ (t : Table). variants.Waits t) tables.items) }
{
    let mut cases = Vec::with_capacity(alloc, tables.len())?;
    while !tables.is_empty() {
        let table = tables.remove(0);
        cases.push(Solving::Waits(table))?;
    }
    Ok(cases)
}

/// The solved cases, where each is.
fn all_solved(alloc: Global, mut cases: Vec<Solving>) -> Result<Vec<CaseDone>, OutOfMemory>
    ensures { IfOk result (λ dones. cases.items ≡ map (λ (d : Done). variants.Solved d) dones.items) }
{
    let mut dones = Vec::with_capacity(alloc, cases.len())?;
    while !cases.is_empty() {
        let Solving::Solved(done) = cases.remove(0) else {
            return Err(OutOfMemory);
        };
        dones.push(done)?;
    }
    Ok(dones)
}

/// Solves tables in at most so many threads, and answers them with their solutions in their order.
pub fn solve_all<R: Threads + Sync>(
    rt: &R,
    alloc: Global,
    workers: usize,
    tables: Vec<CaseTable>,
) -> Result<Vec<CaseDone>, OutOfMemory>
    requires workers { 1 ≤ workers }
    ensures { IfOk result (λ dones. map (λ (d : Done). d.table) dones.items ≡ tables.items) }
{
    let mut cases = waiting(alloc, tables)?;
    solve_waiting(rt, alloc, workers, cases.as_mut_slice());
    all_solved(alloc, cases)
}
