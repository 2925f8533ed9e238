//! The solution of a case, without a report.
ghost use Rattle.std.specs.Prelude.{◌≡◌, ◌≤◌, IfOk, OnErr, OnOk, length};
ghost use Rattle.deck_lines.specs.Deck.{body_of};
ghost use Rattle.plan_program.specs.Chosen.{IsSolution};
ghost use Rattle.case_study.specs.Case.{IsTableOf};
ghost use Rattle.case_study.specs.Listings.{deck_tunnels};
ghost use Rattle.deck_tellings.specs.Solving.{IsCaseLost, IsCaseWithin, IsSolvable, LearnsCase};
ghost use Rattle.deck_tellings.specs.Learning.{GainsFew, HasPlaceFor};

use crate::answer::{CaseAnswer, answer_case};
use crate::memory::Memory;
use checked_deck::{CheckError, TypedDeck, check};
use deck_check::faults_are_met;
use deck_lines::Deck;
use sim_engine::SimEngine;
use sim_sweep::{CaseDone, solve_table};
use std::alloc::Global;
use std::thread::Threads;
use wasp_fixed::OutOfMemory;

/// The table of a case of a deck without a fault, and its solution.
fn solve_typed<E: SimEngine, R: Threads + Sync>(
    alloc: Global,
    rt: &R,
    typed: &TypedDeck,
    case: u64,
    memory: &mut Memory,
    engines: &mut [E],
) -> Result<CaseDone, OutOfMemory>
    requires some { 1 ≤ length engines.old }
    requires most { length engines.old ≤ 64 }
    requires solvable { IsSolvable (body_of typed.now) case }
    requires place { HasPlaceFor 15000 memory.old }
    ensures table { IfOk result (λ done. IsTableOf (body_of typed.now) case (deck_tunnels (body_of typed.now) case)
        done.table) }
    ensures solution { IfOk result (λ done. IsSolution done.table done.solved) }
    ensures within { OnOk result (IsCaseWithin (body_of typed.now) case) }
    ensures learns { OnOk result (LearnsCase (body_of typed.now) case memory.old memory.new E.work engines.old
        engines.new) }
    ensures few { OnOk result (GainsFew 15000 memory.old memory.new) }
    ensures err { OnErr result (IsCaseLost (body_of typed.now) case memory.old memory.new E.work engines.old
        engines.new) }
{
    match answer_case(alloc, rt, typed, case, memory, engines)? {
        CaseAnswer::Table(table) => solve_table(alloc, table),
        CaseAnswer::Over(_) => unreachable!(),
    }
}

/// The table of a case of a deck, and its solution, as a PLAN would settle it. The rows of the case's keys are then
/// kept; those that are new are simulated, each once. Nothing is detailed.
pub fn solve_deck<E: SimEngine, R: Threads + Sync>(
    alloc: Global,
    rt: &R,
    deck: &Deck,
    case: u64,
    memory: &mut Memory,
    engines: &mut [E],
) -> Result<CaseDone, OutOfMemory>
    requires some { 1 ≤ length engines.old }
    requires most { length engines.old ≤ 64 }
    requires solvable { IsSolvable (body_of deck.now) case }
    requires place { HasPlaceFor 15000 memory.old }
    ensures table { IfOk result (λ done. IsTableOf (body_of deck.now) case (deck_tunnels (body_of deck.now) case)
        done.table) }
    ensures solution { IfOk result (λ done. IsSolution done.table done.solved) }
    ensures within { OnOk result (IsCaseWithin (body_of deck.now) case) }
    ensures learns { OnOk result (LearnsCase (body_of deck.now) case memory.old memory.new E.work engines.old
        engines.new) }
    ensures few { OnOk result (GainsFew 15000 memory.old memory.new) }
    ensures err { OnErr result (IsCaseLost (body_of deck.now) case memory.old memory.new E.work engines.old
        engines.new) }
{
    faults_are_met();
    match check(deck) {
        Ok(typed) => solve_typed(alloc, rt, &typed, case, memory, engines),
        Err(CheckError::OutOfMemory) => Err(OutOfMemory),
        Err(CheckError::Fault(_)) => unreachable!(),
    }
}
