//! What is answered of a case.
ghost use Rattle.std.specs.Prelude.{◌≡◌, ◌≤◌, IfOk, OnErr, OnOk, length};
ghost use Rattle.deck_check.specs.Readings as says;
ghost use Rattle.deck_lines.specs.Deck.{body_of};
ghost use Rattle.deck_tellings.specs.Inner.{IsAnswerUnder};
ghost use Rattle.case_study.specs.Keys.{DemandsUnder};
ghost use Rattle.case_study.specs.Listings.{AreTunnels, AreWithin, deck_tunnels};
ghost use Rattle.deck_tellings.specs.Learning.{GainsFew, HasRoomFor, IsLost, Learns};

use crate::memory::Memory;
use case_study::{ListError, Study, list_case, own_tunnels, systems_of, table_of};
use checked_deck::TypedDeck;
use cost_terms::CaseTable;
use plant_data::{Listed, Tunnel};
use report_text::Refusal;
use row_shelf::CaseLists;
use sim_engine::SimEngine;
use std::alloc::Global;
use std::thread::Threads;
use tunnel_configs::listings_are_one;
use wasp_fixed::OutOfMemory;

/// What is answered of a case under tunnels.
#[derive(Drop)]
pub(crate) enum CaseAnswer {
    /// The table of its accepted configurations.
    Table(CaseTable),
    /// The first year over a limit.
    Over(Refusal),
}

/// A case of a deck without a fault under tunnels, one a year.
#[derive(Drop)]
pub(crate) struct CaseUnder<'a> {
    pub(crate) typed: &'a TypedDeck,
    pub(crate) case: u64,
    pub(crate) tunnels: &'a [Tunnel],
}

/// The table of a case under tunnels, or its first year over a limit. The rows of its keys are then kept; those that
/// are new are simulated, each once. Nothing is planned.
pub(crate) fn answer_under<E: SimEngine, R: Threads + Sync>(
    alloc: Global,
    rt: &R,
    asked: CaseUnder,
    memory: &mut Memory,
    engines: &mut [E],
) -> Result<CaseAnswer, OutOfMemory>
    requires some { 1 ≤ length engines.old }
    requires most { length engines.old ≤ 64 }
    requires low { 1 ≤ asked.case }
    requires high { asked.case ≤ says.cases (body_of asked.typed.now) }
    requires tunnels { AreTunnels (body_of asked.typed.now) asked.tunnels.now }
    requires place { HasRoomFor 15000 memory.old }
    ensures answer { IfOk result (λ answer. IsAnswerUnder (body_of asked.entry.typed.now) asked.entry.case
        asked.entry.tunnels.now answer) }
    ensures learns { OnOk result (Learns (AreWithin (body_of asked.entry.typed.now) asked.entry.case
        asked.entry.tunnels.now) (DemandsUnder (body_of asked.entry.typed.now) asked.entry.case
        asked.entry.tunnels.now) (body_of asked.entry.typed.now) memory.old memory.new E.work engines.old engines.new 0) }
    ensures few { OnOk result (GainsFew 15000 memory.old memory.new) }
    ensures err { OnErr result (IsLost (AreWithin (body_of asked.entry.typed.now) asked.entry.case
        asked.entry.tunnels.now) (DemandsUnder (body_of asked.entry.typed.now) asked.entry.case
        asked.entry.tunnels.now) (body_of asked.entry.typed.now) memory.old memory.new E.work engines.old engines.new) }
{
    let CaseUnder {
        typed,
        case,
        tunnels,
    } = asked;
    // Its reading tells the proof that the deck meets no row of the fault table.
    let _years = typed.years();
    listings_are_one();
    let systems = systems_of(alloc, typed)?;
    match list_case(alloc, typed, &systems, case, tunnels) {
        Ok(lists) => {
            let cases = [lists];
            let ids = memory.learn(rt, typed, systems, &cases, engines)?;
            let study = Study::new(typed, case, tunnels, cases[0].as_slice(), &ids);
            Ok(CaseAnswer::Table(table_of(alloc, &study, memory.shelf())?))
        }
        Err(ListError::OutOfMemory) => Err(OutOfMemory),
        Err(ListError::Over(refusal)) => Ok(CaseAnswer::Over(refusal)),
    }
}

/// The same under the deck's own tunnels.
pub(crate) fn answer_case<E: SimEngine, R: Threads + Sync>(
    alloc: Global,
    rt: &R,
    typed: &TypedDeck,
    case: u64,
    memory: &mut Memory,
    engines: &mut [E],
) -> Result<CaseAnswer, OutOfMemory>
    requires some { 1 ≤ length engines.old }
    requires most { length engines.old ≤ 64 }
    requires low { 1 ≤ case }
    requires high { case ≤ says.cases (body_of typed.now) }
    requires place { HasRoomFor 15000 memory.old }
    ensures answer { IfOk result (λ answer. IsAnswerUnder (body_of typed.now) case
        (deck_tunnels (body_of typed.now) case) answer) }
    ensures learns { OnOk result (Learns (AreWithin (body_of typed.now) case (deck_tunnels (body_of typed.now) case))
        (DemandsUnder (body_of typed.now) case (deck_tunnels (body_of typed.now) case)) (body_of typed.now)
        memory.old memory.new E.work engines.old engines.new 0) }
    ensures few { OnOk result (GainsFew 15000 memory.old memory.new) }
    ensures err { OnErr result (IsLost (AreWithin (body_of typed.now) case (deck_tunnels (body_of typed.now) case))
        (DemandsUnder (body_of typed.now) case (deck_tunnels (body_of typed.now) case)) (body_of typed.now)
        memory.old memory.new E.work engines.old engines.new) }
{
    let tunnels = own_tunnels(alloc, typed, case)?;
    let asked = CaseUnder {
        typed,
        case,
        tunnels: &tunnels,
    };
    answer_under(alloc, rt, asked, memory, engines)
}
