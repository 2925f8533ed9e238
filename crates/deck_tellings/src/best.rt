//! What a PLAN line of `best` does.
ghost use Rattle.std.specs.Prelude.{◌≡◌, ◌≤◌, OnErr, OnOk, length};
ghost use Rattle.deck_check.specs.DeckFault.{HasNoFault};
ghost use Rattle.deck_check.specs.Readings as says;
ghost use Rattle.deck_lines.specs.Deck.{body_of};
ghost use Rattle.deck_tellings.specs.Inner.{GoesOn, HasTable, IsAnswerUnder};
ghost use Rattle.case_study.specs.Keys.{DemandsUnder};
ghost use Rattle.case_study.specs.Listings.{AreWithin, deck_tunnels};
ghost use Rattle.deck_tellings.specs.Ranks.{BestDemands, IsCaseRanked, IsDeckRanked, TellsPlain};
ghost use Rattle.deck_tellings.specs.Learning.{GainsFew, HasPlaceFor, HasRoomFor, IsLost, Learns, Tells};

use crate::answer::{CaseAnswer, answer_case};
use crate::memory::Memory;
use best_plans::best;
use checked_deck::{CheckError, TypedDeck, check};
use cost_terms::CaseTable;
use deck_check::faults_are_met;
use deck_lines::Deck;
use plan_program::solve;
use report_text::{Refusal, write_no_plan, write_over, write_ranking, write_refusal};
use sim_engine::SimEngine;
use std::alloc::Global;
use std::thread::Threads;
use wasp_fixed::OutOfMemory;

/// A deck, and how many plans of each of its cases are asked for.
#[derive(Drop)]
pub struct BestOf<'a> {
    pub deck: &'a Deck,
    pub plans: u64,
}

/// The same of one without a fault.
#[derive(Drop)]
struct BestOfTyped<'a> {
    typed: &'a TypedDeck,
    plans: u64,
}

/// A case of a deck without a fault, and how many of its plans are asked for.
#[derive(Drop)]
struct BestOfCase<'a> {
    typed: &'a TypedDeck,
    case: u64,
    plans: u64,
}

/// Tells the best plans over the table of a case, or the first year that no plan reaches.
fn rank_table(
    alloc: Global,
    asked: &BestOfCase,
    table: &CaseTable,
    text: &mut Vec<u8>,
) -> Result<(), OutOfMemory>
    requires one { 1 ≤ asked.now.plans }
    requires ten { asked.now.plans ≤ 10 }
    requires table { HasTable (body_of asked.now.typed.now) asked.now.case
        (deck_tunnels (body_of asked.now.typed.now) asked.now.case) table.now }
    ensures told { OnOk result (TellsPlain (IsCaseRanked (body_of asked.now.typed.now) asked.now.plans asked.now.case)
        text.old text.new) }
    ensures goes_on { GoesOn text.old text.new }
{
    let ranking = best(alloc, table, asked.plans)?;
    if ranking.len() == 0 {
        let solved = solve(alloc, table)?;
        return write_no_plan(asked.case, &solved.outcome, text);
    }
    write_ranking(asked.case, &ranking, text)
}

/// Tells the best plans of a case, or its first year over a limit.
fn rank_answer(
    alloc: Global,
    asked: &BestOfCase,
    answer: &CaseAnswer,
    text: &mut Vec<u8>,
) -> Result<(), OutOfMemory>
    requires one { 1 ≤ asked.now.plans }
    requires ten { asked.now.plans ≤ 10 }
    requires answer { IsAnswerUnder (body_of asked.now.typed.now) asked.now.case
        (deck_tunnels (body_of asked.now.typed.now) asked.now.case) answer.now }
    ensures told { OnOk result (TellsPlain (IsCaseRanked (body_of asked.now.typed.now) asked.now.plans asked.now.case)
        text.old text.new) }
    ensures goes_on { GoesOn text.old text.new }
{
    match answer {
        CaseAnswer::Table(table) => rank_table(alloc, asked, table, text),
        CaseAnswer::Over(refusal) => write_over(asked.case, refusal, text),
    }
}

/// Ranks the best plans of a case. A case over a limit demands no key.
fn rank_case<E: SimEngine, R: Threads + Sync>(
    alloc: Global,
    rt: &R,
    asked: &BestOfCase,
    memory: &mut Memory,
    engines: &mut [E],
    text: &mut Vec<u8>,
) -> Result<(), OutOfMemory>
    requires some { 1 ≤ length engines.old }
    requires most { length engines.old ≤ 64 }
    requires one { 1 ≤ asked.now.plans }
    requires ten { asked.now.plans ≤ 10 }
    requires low { 1 ≤ asked.now.case }
    requires high { asked.now.case ≤ says.cases (body_of asked.now.typed.now) }
    requires place { HasRoomFor 15000 memory.old }
    ensures told { OnOk result (TellsPlain (IsCaseRanked (body_of asked.now.typed.now) asked.now.plans asked.now.case)
        text.old text.new) }
    ensures learns { OnOk result (Learns (AreWithin (body_of asked.now.typed.now) asked.now.case
        (deck_tunnels (body_of asked.now.typed.now) asked.now.case)) (DemandsUnder (body_of asked.now.typed.now)
        asked.now.case (deck_tunnels (body_of asked.now.typed.now) asked.now.case)) (body_of asked.now.typed.now)
        memory.old memory.new E.work engines.old engines.new 0) }
    ensures few { OnOk result (GainsFew 15000 memory.old memory.new) }
    ensures err { OnErr result (IsLost (AreWithin (body_of asked.now.typed.now) asked.now.case
        (deck_tunnels (body_of asked.now.typed.now) asked.now.case)) (DemandsUnder (body_of asked.now.typed.now)
        asked.now.case (deck_tunnels (body_of asked.now.typed.now) asked.now.case)) (body_of asked.now.typed.now)
        memory.old memory.new E.work engines.old engines.new) }
    ensures goes_on { GoesOn text.old text.new }
{
    let answer = answer_case(alloc, rt, asked.typed, asked.case, memory, engines)?;
    rank_answer(alloc, asked, &answer, text)
}

/// Ranks the best plans of each case of a deck without a fault.
fn rank_typed<E: SimEngine, R: Threads + Sync>(
    alloc: Global,
    rt: &R,
    asked: &BestOfTyped,
    memory: &mut Memory,
    engines: &mut [E],
    text: &mut Vec<u8>,
) -> Result<(), OutOfMemory>
    requires some { 1 ≤ length engines.old }
    requires most { length engines.old ≤ 64 }
    requires one { 1 ≤ asked.now.plans }
    requires ten { asked.now.plans ≤ 10 }
    requires place { HasPlaceFor 120000 memory.old }
    ensures told { OnOk result (Tells (IsDeckRanked asked.now.plans (body_of asked.now.typed.now))
        (HasNoFault (body_of asked.now.typed.now)) (BestDemands (body_of asked.now.typed.now))
        (body_of asked.now.typed.now) memory.old memory.new E.work engines.old engines.new text.old text.new 0) }
    ensures few { OnOk result (GainsFew 120000 memory.old memory.new) }
    ensures err { OnErr result (IsLost (HasNoFault (body_of asked.now.typed.now))
        (BestDemands (body_of asked.now.typed.now)) (body_of asked.now.typed.now)
        memory.old memory.new E.work engines.old engines.new) }
    ensures goes_on { GoesOn text.old text.new }
{
    // Its reading tells the proof that there are at most 30 years, and that the deck meets no row of the fault table.
    let _years = asked.typed.years();
    for c in 0..asked.typed.cases() {
        let one = BestOfCase {
            typed: asked.typed,
            case: c + 1,
            plans: asked.plans,
        };
        rank_case(alloc, rt, &one, memory, engines, text)?;
        // Its reading tells the proof that no two systems are the same.
        let _shelf = memory.shelf();
    }
    Ok(())
}

/// Ranks the best plans of each case of a deck, or tells its refusal.
pub fn rank_deck<E: SimEngine, R: Threads + Sync>(
    alloc: Global,
    rt: &R,
    asked: BestOf,
    memory: &mut Memory,
    engines: &mut [E],
    text: &mut Vec<u8>,
) -> Result<(), OutOfMemory>
    requires some { 1 ≤ length engines.old }
    requires most { length engines.old ≤ 64 }
    requires one { 1 ≤ asked.plans }
    requires ten { asked.plans ≤ 10 }
    requires place { HasPlaceFor 120000 memory.old }
    ensures told { OnOk result (Tells (IsDeckRanked asked.entry.plans (body_of asked.entry.deck.now))
        (HasNoFault (body_of asked.entry.deck.now)) (BestDemands (body_of asked.entry.deck.now))
        (body_of asked.entry.deck.now) memory.old memory.new E.work engines.old engines.new text.old text.new 0) }
    ensures few { OnOk result (GainsFew 120000 memory.old memory.new) }
    ensures err { OnErr result (IsLost (HasNoFault (body_of asked.entry.deck.now))
        (BestDemands (body_of asked.entry.deck.now)) (body_of asked.entry.deck.now)
        memory.old memory.new E.work engines.old engines.new) }
    ensures goes_on { GoesOn text.old text.new }
{
    faults_are_met();
    match check(asked.deck) {
        Ok(typed) => {
            let typed = BestOfTyped {
                typed: &typed,
                plans: asked.plans,
            };
            rank_typed(alloc, rt, &typed, memory, engines, text)
        }
        Err(CheckError::OutOfMemory) => Err(OutOfMemory),
        Err(CheckError::Fault(fault)) => write_refusal(&Refusal::Deck(fault), text),
    }
}
