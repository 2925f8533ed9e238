//! Worked rows: first faults of decks.
ghost use Rattle.std.specs.Prelude.{IfOk, IfSome};
ghost use Rattle.deck_lines.specs.Grammar.{IsLine};

mod realistic;
mod table;

use crate::decks::{edit, edited};
use deck_check::{DeckFault, first_fault};
use deck_lines::Deck;
use std::alloc::{AllocError, Global};
use std::test::Fail;

fn fault_said(alloc: Global, fault: DeckFault) -> Result<String, AllocError> {
    let DeckFault { number, a, b, c } = fault;
    format!(in alloc; "{number} {a} {b} {c}")
}

/// The number of the fault and its numbers, or `none`.
fn verdict(alloc: Global, deck: &Deck) -> Result<String, AllocError> {
    match first_fault(deck) {
        Some(fault) => fault_said(alloc, fault),
        None => format!(in alloc; "none"),
    }
}

/// How many decks of a table were checked, and how many of them have another fault.
fn count_wrong(alloc: Global, table: &str) -> Result<(usize, usize), AllocError> {
    let (mut read, mut wrong): (usize, usize) = (0, 0);
    for row in table.lines() {
        let (edits, want) = row.split_once('|').unwrap_or(("", "no bar"));
        let got = verdict(alloc, &edited(alloc, edits)?)?;
        read = read.saturating_add(1);
        if got.as_str() != want {
            wrong = wrong.saturating_add(1);
        }
    }
    Ok((read, wrong))
}

#[test]
fn decks_have_the_first_fault_of_the_table(rt: HostRuntime) -> Result<(), Fail> {
    assert_eq!(rt; count_wrong(rt.alloc(), table::FAULTS)?, (101, 0));
    Ok(())
}

/// How many PLAN lines a script has, and at how many of them the deck has a fault.
fn count_plans(alloc: Global, script: &str) -> Result<(usize, usize), AllocError> {
    let mut deck = Deck::new(alloc);
    let (mut plans, mut faults): (usize, usize) = (0, 0);
    for line in script.lines() {
        edit(alloc, &mut deck, line)?;
        if line == "PLAN" {
            plans = plans.saturating_add(1);
            let got = verdict(alloc, &deck)?;
            if got.as_str() != "none" {
                faults = faults.saturating_add(1);
            }
        }
    }
    Ok((plans, faults))
}

#[test]
fn a_realistic_deck_has_no_fault(rt: HostRuntime) -> Result<(), Fail> {
    assert_eq!(rt; count_plans(rt.alloc(), realistic::DECK)?, (3, 0));
    Ok(())
}

/// Puts a group of so many projects in the deck, none of which stands.
fn add_group(alloc: Global, deck: &mut Deck, group: u64, projects: u64) -> Result<(), AllocError> {
    let head = format!(in alloc; "HYDRO {group} RIVER 0 {projects} 0")?;
    edit(alloc, deck, &head)?;
    for j in 0..projects {
        let project = format!(in alloc; "PROJECT {group} {} 1 0 0 1", j.saturating_add(1))?;
        edit(alloc, deck, &project)?;
        let water = format!(in alloc; "WATER {group} {} 1 0 0 0", j.saturating_add(1))?;
        edit(alloc, deck, &water)?;
    }
    Ok(())
}

/// A deck of twelve thermal candidates with 128 units together, and of two hydro groups.
fn wide_deck(alloc: Global, first: u64, second: u64) -> Result<Deck, AllocError> {
    let mut deck = edited(
        alloc,
        "DROP PLANT 1;TUNNEL 1 1 0 0 0 0 0 0 0 0 0 0 0 0 0 0 0 0 0 0 0 0 0 0 0 0 0 0 0 0",
    )?;
    for k in 0..12u64 {
        let greatest: u64 = if k < 8 { 11 } else { 10 };
        let line = format!(in alloc;
            "THERMAL {} GAS {greatest} 1 1 0 0 1 0 0 0 0 0 0 0 1",
            k.saturating_add(1)
        )?;
        edit(alloc, &mut deck, &line)?;
    }
    add_group(alloc, &mut deck, 1, first)?;
    add_group(alloc, &mut deck, 2, second)?;
    Ok(deck)
}

#[test]
fn codes_have_room_for_less_than_2_to_50_configurations(rt: HostRuntime) -> Result<(), Fail> {
    let alloc = rt.alloc();
    for (first, second, want) in [(15, 9, "none"), (9, 15, "none"), (15, 15, "21 0 0 0")] {
        let got = verdict(alloc, &wide_deck(alloc, first, second)?)?;
        assert_eq!(rt; got.as_str(), want);
    }
    Ok(())
}
