//! What an ENDCHECK line does.
ghost use Rattle.std.specs.Prelude.{◌≡◌, ◌≤◌, IfOk, OnErr, OnOk, length};
ghost use Rattle.deck_lines.specs.Deck.{body_of};
ghost use Rattle.deck_tellings.specs.Checks.{IsChecked, IsJudged};
ghost use Rattle.deck_tellings.specs.Checks.{DemandsChecked};
ghost use Rattle.deck_tellings.specs.Learning.{GainsFew, HasPlaceFor, IsLost, Learns};

use crate::answer::{CaseAnswer, answer_case};
use crate::memory::Memory;
use crate::opened::OpenCheck;
use checked_deck::{CheckError, TypedDeck, check};
use deck_check::faults_are_met;
use deck_lines::Deck;
use plan_certificate::{CertError, judge, read_certificate, readings_are_one};
use report_text::{Judged, Refusal};
use sim_engine::SimEngine;
use std::alloc::Global;
use std::thread::Threads;
use tunnel_configs::listings_are_one;
use wasp_fixed::OutOfMemory;

/// Judges a certificate on a deck without a fault, or says where its form has one.
fn judge_typed<E: SimEngine, R: Threads + Sync>(
    alloc: Global,
    rt: &R,
    typed: &TypedDeck,
    opened: &OpenCheck,
    memory: &mut Memory,
    engines: &mut [E],
) -> Result<Judged, OutOfMemory>
    requires some { 1 ≤ length engines.old }
    requires most { length engines.old ≤ 64 }
    requires place { HasPlaceFor 120000 memory.old }
    ensures judged { IfOk result (λ judged. IsJudged (body_of typed.now) opened.now judged) }
    ensures learns { OnOk result (Learns (IsChecked (body_of typed.now) opened.now)
        (DemandsChecked (body_of typed.now) opened.now)
        (body_of typed.now) memory.old memory.new E.work engines.old engines.new 0) }
    ensures few { OnOk result (GainsFew 120000 memory.old memory.new) }
    ensures err { OnErr result (IsLost (IsChecked (body_of typed.now) opened.now)
        (DemandsChecked (body_of typed.now) opened.now)
        (body_of typed.now) memory.old memory.new E.work engines.old engines.new) }
{
    // Its reading tells the proof that the deck meets no row of the fault table.
    let _years = typed.years();
    listings_are_one();
    readings_are_one();
    let case = opened.case();
    if typed.cases() < case {
        return Ok(Judged::Form(0));
    }
    match read_certificate(alloc, opened.lines(), typed.years(), typed.width()) {
        Ok(certificate) => match answer_case(alloc, rt, typed, case, memory, engines)? {
            CaseAnswer::Table(table) => Ok(Judged::Said(judge(&table, &certificate))),
            CaseAnswer::Over(refusal) => Ok(Judged::Refused(refusal)),
        },
        Err(CertError::OutOfMemory) => Err(OutOfMemory),
        Err(CertError::Form(line)) => Ok(Judged::Form(line)),
    }
}

/// What is said of the certificate of an open CHECK on a deck. The rows of the keys of its case are kept, where it is
/// neither refused nor failed in its form.
pub fn judge_deck<E: SimEngine, R: Threads + Sync>(
    alloc: Global,
    rt: &R,
    deck: &Deck,
    opened: &OpenCheck,
    memory: &mut Memory,
    engines: &mut [E],
) -> Result<Judged, OutOfMemory>
    requires some { 1 ≤ length engines.old }
    requires most { length engines.old ≤ 64 }
    requires place { HasPlaceFor 120000 memory.old }
    ensures judged { IfOk result (λ judged. IsJudged (body_of deck.now) opened.now judged) }
    ensures learns { OnOk result (Learns (IsChecked (body_of deck.now) opened.now)
        (DemandsChecked (body_of deck.now) opened.now)
        (body_of deck.now) memory.old memory.new E.work engines.old engines.new 0) }
    ensures few { OnOk result (GainsFew 120000 memory.old memory.new) }
    ensures err { OnErr result (IsLost (IsChecked (body_of deck.now) opened.now)
        (DemandsChecked (body_of deck.now) opened.now)
        (body_of deck.now) memory.old memory.new E.work engines.old engines.new) }
{
    faults_are_met();
    match check(deck) {
        Ok(typed) => judge_typed(alloc, rt, &typed, opened, memory, engines),
        Err(CheckError::OutOfMemory) => Err(OutOfMemory),
        Err(CheckError::Fault(fault)) => Ok(Judged::Refused(Refusal::Deck(fault))),
    }
}
