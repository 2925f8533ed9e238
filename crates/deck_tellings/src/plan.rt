//! What a PLAN line does.
ghost use Rattle.std.specs.Prelude.{◌≡◌, ◌≤◌, [], ◌∷◌, IfOk, OnErr, OnOk, length, map};
ghost use Rattle.deck_check.specs.Readings as says;
ghost use Rattle.deck_lines.specs.Deck.{body_of};
ghost use Rattle.deck_tellings.specs.Inner.{AreSettled, AreTablesFrom, GoesOn, IsOwnTable, TellsBy, TellsByFirst};
ghost use Rattle.case_study.specs.Inner.{HaveDetailed, IsDeckOn};
ghost use Rattle.case_study.specs.Keys.{Demands};
ghost use Rattle.case_study.specs.Listings.{IsTaken, deck_tunnels};
ghost use Rattle.deck_tellings.specs.Said.{AreCasesTold, IsCaseTold, IsDeckTold};
ghost use Rattle.deck_tellings.specs.Learning.{GainsFew, HasPlaceFor, IsLost, Tells};
ghost use Rattle.case_study.specs.Studies.{IsOn};

use crate::memory::Memory;
use case_study::{
    DeckStudy, ListError, Study, list_cases, own_tunnels, report_case, systems_of, table_of,
};
use checked_deck::{CheckError, TypedDeck, check};
use cost_terms::CaseTable;
use deck_check::faults_are_met;
use deck_lines::Deck;
use plan_certificate::{readings_are_one, solutions_are_certified};
use report_text::{Refusal, reports_read_back, write_case, write_refusal};
use row_shelf::Shelf;
use sim_engine::SimEngine;
use sim_sweep::{CaseDone, solve_all};
use std::alloc::Global;
use std::thread::Threads;
use tunnel_configs::listings_are_one;
use wasp_fixed::OutOfMemory;

/// The table of each case of a deck under the deck's own tunnels, in their order.
fn tables_of(alloc: Global, plan: &DeckStudy, shelf: &Shelf) -> Result<Vec<CaseTable>, OutOfMemory>
    requires on { IsDeckOn shelf.now plan.now }
    ensures many { IfOk result (λ tables. length tables.items ≡ length plan.now.cases) }
    ensures tables { IfOk result (λ tables. AreTablesFrom (body_of plan.now.deck) 1 tables.items) }
{
    let typed = plan.typed();
    let cases = plan.cases();
    // Its reading tells the proof that there are at most 8 cases.
    let _cases = typed.cases();
    let mut tables = Vec::new(alloc);
    for c in 0..cases.len() {
        let case = c as u64 + 1;
        let tunnels = own_tunnels(alloc, typed, case)?;
        let study = Study::new(typed, case, &tunnels, cases[c].as_slice(), plan.ids());
        tables.push(table_of(alloc, &study, shelf)?)?;
    }
    Ok(tables)
}

/// Settles each case of a deck, in at most so many threads, in their order.
fn settle_cases<R: Threads + Sync>(
    alloc: Global,
    rt: &R,
    plan: &DeckStudy,
    shelf: &Shelf,
    workers: usize,
) -> Result<Vec<CaseDone>, OutOfMemory>
    requires workers { 1 ≤ workers }
    requires on { IsDeckOn shelf.now plan.now }
    ensures { IfOk result (λ dones. AreSettled plan.now dones.items) }
{
    let tables = tables_of(alloc, plan, shelf)?;
    solve_all(rt, alloc, workers, tables)
}

/// Tells a settled case under the deck's own tunnels. What is told is accepted by the checker on the same deck.
fn tell_case<E: SimEngine>(
    alloc: Global,
    study: &Study,
    shelf: &Shelf,
    done: CaseDone,
    engine: &mut E,
    text: &mut Vec<u8>,
) -> Result<(), OutOfMemory>
    requires on { IsOn shelf.now study.now }
    requires own { study.now.tunnels ≡ deck_tunnels (body_of study.now.deck) study.now.case }
    requires table { IsOwnTable (body_of study.now.deck) study.now.case done.table }
    ensures told { OnOk result (TellsBy (IsCaseTold (body_of study.now.deck) study.now.case)
        (E.work engine.old) (E.work engine.new) text.old text.new) }
    ensures gone { HaveDetailed (E.work engine.old ∷ []) (E.work engine.new ∷ []) }
    ensures goes_on { GoesOn text.old text.new }
{
    // By these laws the report is accepted as a certificate.
    reports_read_back();
    solutions_are_certified();
    readings_are_one();
    // Its reading tells the proof that the table is solved.
    let _table = done.table();
    let report = report_case(alloc, study, shelf, done, engine)?;
    write_case(study.case(), &report, text)
}

/// Tells each settled case.
fn tell_cases<E: SimEngine>(
    alloc: Global,
    plan: &DeckStudy,
    shelf: &Shelf,
    mut dones: Vec<CaseDone>,
    engine: &mut E,
    text: &mut Vec<u8>,
) -> Result<(), OutOfMemory>
    requires on { IsDeckOn shelf.now plan.now }
    requires settled { AreSettled plan.now dones.items }
    ensures told { OnOk result (TellsBy (AreCasesTold (body_of plan.now.deck) (says.cases (body_of plan.now.deck)))
        (E.work engine.old) (E.work engine.new) text.old text.new) }
    ensures gone { HaveDetailed (E.work engine.old ∷ []) (E.work engine.new ∷ []) }
    ensures goes_on { GoesOn text.old text.new }
{
    let typed = plan.typed();
    let cases = plan.cases();
    // Its reading tells the proof that there are at most 8 cases.
    let _cases = typed.cases();
    for c in 0..cases.len() {
        let case = c as u64 + 1;
        let tunnels = own_tunnels(alloc, typed, case)?;
        let study = Study::new(typed, case, &tunnels, cases[c].as_slice(), plan.ids());
        tell_case(alloc, &study, shelf, dones.remove(0), engine, text)?;
    }
    Ok(())
}

/// The same by the first of some engines.
fn tell_by_first<E: SimEngine>(
    alloc: Global,
    plan: &DeckStudy,
    shelf: &Shelf,
    dones: Vec<CaseDone>,
    engines: &mut [E],
    text: &mut Vec<u8>,
) -> Result<(), OutOfMemory>
    requires some { 1 ≤ length engines.old }
    requires on { IsDeckOn shelf.now plan.now }
    requires settled { AreSettled plan.now dones.items }
    ensures told { OnOk result (TellsByFirst (AreCasesTold (body_of plan.now.deck) (says.cases (body_of plan.now.deck)))
        E.work engines.old engines.new text.old text.new) }
    ensures gone { HaveDetailed (map E.work engines.old) (map E.work engines.new) }
    ensures goes_on { GoesOn text.old text.new }
{
    tell_cases(alloc, plan, shelf, dones, &mut engines[0], text)
}

/// Plans a deck without a fault, or tells the first case and year over a limit.
fn plan_typed<E: SimEngine, R: Threads + Sync>(
    alloc: Global,
    rt: &R,
    typed: &TypedDeck,
    memory: &mut Memory,
    engines: &mut [E],
    text: &mut Vec<u8>,
) -> Result<(), OutOfMemory>
    requires some { 1 ≤ length engines.old }
    requires most { length engines.old ≤ 64 }
    requires place { HasPlaceFor 120000 memory.old }
    ensures told { OnOk result (Tells (IsDeckTold (body_of typed.now)) (IsTaken (body_of typed.now))
        (Demands (body_of typed.now))
        (body_of typed.now) memory.old memory.new E.work engines.old engines.new text.old text.new 0) }
    ensures few { OnOk result (GainsFew 120000 memory.old memory.new) }
    ensures err { OnErr result (IsLost (IsTaken (body_of typed.now)) (Demands (body_of typed.now)) (body_of typed.now)
        memory.old memory.new E.work engines.old engines.new) }
    ensures goes_on { GoesOn text.old text.new }
{
    // Its reading tells the proof that the deck meets no row of the fault table.
    let _years = typed.years();
    listings_are_one();
    let systems = systems_of(alloc, typed)?;
    match list_cases(alloc, typed, &systems) {
        Ok(cases) => {
            let ids = memory.learn(rt, typed, systems, &cases, engines)?;
            let plan = DeckStudy::new(typed, &cases, &ids);
            let dones = settle_cases(alloc, rt, &plan, memory.shelf(), engines.len())?;
            tell_by_first(alloc, &plan, memory.shelf(), dones, engines, text)
        }
        Err(ListError::OutOfMemory) => Err(OutOfMemory),
        Err(ListError::Over(refusal)) => write_refusal(&refusal, text),
    }
}

/// Plans a deck: its refusal or the reports of its cases.
pub fn plan_deck<E: SimEngine, R: Threads + Sync>(
    alloc: Global,
    rt: &R,
    deck: &Deck,
    memory: &mut Memory,
    engines: &mut [E],
    text: &mut Vec<u8>,
) -> Result<(), OutOfMemory>
    requires some { 1 ≤ length engines.old }
    requires most { length engines.old ≤ 64 }
    requires place { HasPlaceFor 120000 memory.old }
    ensures told { OnOk result (Tells (IsDeckTold (body_of deck.now)) (IsTaken (body_of deck.now))
        (Demands (body_of deck.now))
        (body_of deck.now) memory.old memory.new E.work engines.old engines.new text.old text.new 0) }
    ensures few { OnOk result (GainsFew 120000 memory.old memory.new) }
    ensures err { OnErr result (IsLost (IsTaken (body_of deck.now)) (Demands (body_of deck.now)) (body_of deck.now)
        memory.old memory.new E.work engines.old engines.new) }
    ensures goes_on { GoesOn text.old text.new }
{
    faults_are_met();
    match check(deck) {
        Ok(typed) => plan_typed(alloc, rt, &typed, memory, engines, text),
        Err(CheckError::OutOfMemory) => Err(OutOfMemory),
        Err(CheckError::Fault(fault)) => write_refusal(&Refusal::Deck(fault), text),
    }
}
