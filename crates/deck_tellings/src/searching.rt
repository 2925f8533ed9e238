//! What a PLAN line of `search` does.
ghost use Rattle.std.specs.Prelude.{◌≡◌, ◌+◌, ◌≤◌, None, OnErr, OnOk, length};
ghost use Rattle.deck_check.specs.DeckFault.{HasNoFault};
ghost use Rattle.deck_check.specs.Readings as says;
ghost use Rattle.deck_lines.specs.Deck.{body_of};
ghost use Rattle.deck_tellings.specs.Inner.{GoesOn};
ghost use Rattle.case_study.specs.Listings.{deck_tunnels};
ghost use Rattle.deck_tellings.specs.Rounds.{AreCasesSearched, AreRounds, IsCaseSearched, IsDeckSearched, RoundDemands, SearchDemands};
ghost use Rattle.deck_tellings.specs.Searching.{CasesDemand, HasRoundsFor, IsSaid};
ghost use Rattle.deck_tellings.specs.Learning.{GainsFew, HasPlaceFor, IsLost, Learns, Tells};
ghost use Rattle.deck_tellings.specs.Told.{plain};

use crate::answer::CaseUnder;
use crate::memory::Memory;
use crate::rounds::{NextRound, SearchedCase, Turn, solve_under, tell_round};
use case_study::{greatest_of, own_tunnels};
use checked_deck::{CheckError, TypedDeck, check};
use deck_check::faults_are_met;
use deck_lines::Deck;
use report_text::{Refusal, write_case_line, write_found, write_refusal, write_rounds_end};
use sim_engine::SimEngine;
use std::alloc::Global;
use std::thread::Threads;
use tunnel_configs::listings_are_one;
use wasp_fixed::OutOfMemory;

/// Plans a case round by round, and tells of each round; its tunnels move in between.
fn search_rounds<E: SimEngine, R: Threads + Sync>(
    alloc: Global,
    rt: &R,
    of: &SearchedCase,
    memory: &mut Memory,
    engines: &mut [E],
    text: &mut Vec<u8>,
) -> Result<(), OutOfMemory>
    requires some { 1 ≤ length engines.old }
    requires most { length engines.old ≤ 64 }
    requires low { 1 ≤ of.now.case }
    requires high { of.now.case ≤ says.cases (body_of of.now.typed.now) }
    requires greatest { of.now.greatest.now ≡ says.greatest (body_of of.now.typed.now) }
    requires place { HasRoundsFor (body_of of.now.typed.now) 300000 memory.old }
    ensures told { OnOk result (IsSaid (AreRounds 20 (body_of of.now.typed.now) of.now.case 1
        (deck_tunnels (body_of of.now.typed.now) of.now.case) None) text.old text.new) }
    ensures learns { OnOk result (Learns (Unit {0}) (RoundDemands (body_of of.now.typed.now) of.now.case 20)
        (body_of of.now.typed.now) memory.old memory.new E.work engines.old engines.new 0) }
    ensures few { OnOk result (length memory.new.shelf.kept ≤ length memory.old.shelf.kept + 300000) }
    ensures err { OnErr result (IsLost (Unit {0}) (RoundDemands (body_of of.now.typed.now) of.now.case 20)
        (body_of of.now.typed.now) memory.old memory.new E.work engines.old engines.new) }
    ensures goes_on { GoesOn text.old text.new }
{
    // Its reading tells the proof that there are at most 30 years.
    let _years = of.typed.years();
    listings_are_one();
    let mut round = NextRound {
        number: 1,
        tunnels: own_tunnels(alloc, of.typed, of.case)?,
        last: None,
    };
    for k in 0..20u64 {
        // Its reading tells the proof that the shelf is one.
        let _shelf = memory.shelf();
        let asked = CaseUnder {
            typed: of.typed,
            case: of.case,
            tunnels: &round.tunnels,
        };
        let answer = solve_under(alloc, rt, asked, memory, engines)?;
        match tell_round(alloc, of, round, answer, text)? {
            Turn::Ended => return Ok(()),
            Turn::Goes(next) => round = next,
        }
    }
    write_rounds_end(text)?;
    write_found(of.case, &round.last, text)
}

/// Searches a case, behind its line.
fn search_case<E: SimEngine, R: Threads + Sync>(
    alloc: Global,
    rt: &R,
    of: &SearchedCase,
    memory: &mut Memory,
    engines: &mut [E],
    text: &mut Vec<u8>,
) -> Result<(), OutOfMemory>
    requires some { 1 ≤ length engines.old }
    requires most { length engines.old ≤ 64 }
    requires low { 1 ≤ of.now.case }
    requires high { of.now.case ≤ says.cases (body_of of.now.typed.now) }
    requires greatest { of.now.greatest.now ≡ says.greatest (body_of of.now.typed.now) }
    requires place { HasRoundsFor (body_of of.now.typed.now) 300000 memory.old }
    ensures told { OnOk result (IsSaid (λ said. IsCaseSearched (body_of of.now.typed.now) of.now.case (plain said))
        text.old text.new) }
    ensures learns { OnOk result (Learns (Unit {0}) (RoundDemands (body_of of.now.typed.now) of.now.case 20)
        (body_of of.now.typed.now) memory.old memory.new E.work engines.old engines.new 0) }
    ensures few { OnOk result (length memory.new.shelf.kept ≤ length memory.old.shelf.kept + 300000) }
    ensures err { OnErr result (IsLost (Unit {0}) (RoundDemands (body_of of.now.typed.now) of.now.case 20)
        (body_of of.now.typed.now) memory.old memory.new E.work engines.old engines.new) }
    ensures goes_on { GoesOn text.old text.new }
{
    write_case_line(of.case, text)?;
    search_rounds(alloc, rt, of, memory, engines, text)
}

/// Searches each case of a deck without a fault.
fn search_cases<E: SimEngine, R: Threads + Sync>(
    alloc: Global,
    rt: &R,
    typed: &TypedDeck,
    memory: &mut Memory,
    engines: &mut [E],
    text: &mut Vec<u8>,
) -> Result<(), OutOfMemory>
    requires some { 1 ≤ length engines.old }
    requires most { length engines.old ≤ 64 }
    requires place { HasRoundsFor (body_of typed.now) 2400000 memory.old }
    ensures told { OnOk result (IsSaid (λ said. AreCasesSearched (body_of typed.now) (says.cases (body_of typed.now))
        (plain said)) text.old text.new) }
    ensures learns { OnOk result (Learns (Unit {0}) (CasesDemand (body_of typed.now) (says.cases (body_of typed.now)))
        (body_of typed.now) memory.old memory.new E.work engines.old engines.new 0) }
    ensures few { OnOk result (length memory.new.shelf.kept ≤ length memory.old.shelf.kept + 2400000) }
    ensures err { OnErr result (IsLost (Unit {0}) (CasesDemand (body_of typed.now) (says.cases (body_of typed.now)))
        (body_of typed.now) memory.old memory.new E.work engines.old engines.new) }
    ensures goes_on { GoesOn text.old text.new }
{
    // Its reading tells the proof that the deck meets no row of the fault table.
    let _years = typed.years();
    let greatest = greatest_of(&typed.system(alloc, 1)?);
    for c in 0..typed.cases() {
        let of = SearchedCase {
            typed,
            case: c + 1,
            greatest: &greatest,
        };
        search_case(alloc, rt, &of, memory, engines, text)?;
    }
    Ok(())
}

/// The same, where it is said of the whole deck.
fn search_typed<E: SimEngine, R: Threads + Sync>(
    alloc: Global,
    rt: &R,
    typed: &TypedDeck,
    memory: &mut Memory,
    engines: &mut [E],
    text: &mut Vec<u8>,
) -> Result<(), OutOfMemory>
    requires some { 1 ≤ length engines.old }
    requires most { length engines.old ≤ 64 }
    requires place { HasPlaceFor 2400000 memory.old }
    ensures told { OnOk result (Tells (IsDeckSearched (body_of typed.now)) (HasNoFault (body_of typed.now))
        (SearchDemands (body_of typed.now)) (body_of typed.now) memory.old memory.new E.work engines.old engines.new
        text.old text.new 0) }
    ensures few { OnOk result (GainsFew 2400000 memory.old memory.new) }
    ensures err { OnErr result (IsLost (HasNoFault (body_of typed.now)) (SearchDemands (body_of typed.now))
        (body_of typed.now) memory.old memory.new E.work engines.old engines.new) }
    ensures goes_on { GoesOn text.old text.new }
{
    // Its reading tells the proof that the deck meets no row of the fault table.
    let _years = typed.years();
    let searched = search_cases(alloc, rt, typed, memory, engines, text);
    // Its reading tells the proof that the shelf is one.
    let _shelf = memory.shelf();
    searched
}

/// Searches each case of a deck for tunnels in which no chosen configuration stands at an edge that may be moved, or
/// tells the deck's refusal.
pub fn search_deck<E: SimEngine, R: Threads + Sync>(
    alloc: Global,
    rt: &R,
    deck: &Deck,
    memory: &mut Memory,
    engines: &mut [E],
    text: &mut Vec<u8>,
) -> Result<(), OutOfMemory>
    requires some { 1 ≤ length engines.old }
    requires most { length engines.old ≤ 64 }
    requires place { HasPlaceFor 2400000 memory.old }
    ensures told { OnOk result (Tells (IsDeckSearched (body_of deck.now)) (HasNoFault (body_of deck.now))
        (SearchDemands (body_of deck.now)) (body_of deck.now) memory.old memory.new E.work engines.old engines.new
        text.old text.new 0) }
    ensures few { OnOk result (GainsFew 2400000 memory.old memory.new) }
    ensures err { OnErr result (IsLost (HasNoFault (body_of deck.now)) (SearchDemands (body_of deck.now))
        (body_of deck.now) memory.old memory.new E.work engines.old engines.new) }
    ensures goes_on { GoesOn text.old text.new }
{
    faults_are_met();
    match check(deck) {
        Ok(typed) => search_typed(alloc, rt, &typed, memory, engines, text),
        Err(CheckError::OutOfMemory) => Err(OutOfMemory),
        Err(CheckError::Fault(fault)) => write_refusal(&Refusal::Deck(fault), text),
    }
}
