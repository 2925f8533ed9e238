//! Worked rows: what a deck without a fault says.
ghost use Rattle.std.specs.Prelude.{IfOk, IfSome};
ghost use Rattle.deck_lines.specs.Grammar.{IsLine};

use crate::decks::edited;
use checked_deck::{CheckError, Name, PlantId, TypedDeck, check};
use std::alloc::{AllocError, Global};
use std::test::Fail;

/// The base deck after edits, if it has no fault.
fn typed(alloc: Global, edits: &str) -> Result<Option<TypedDeck>, AllocError> {
    match check(&edited(alloc, edits)?) {
        Ok(typed) => Ok(Some(typed)),
        Err(CheckError::Fault(_)) => Ok(None),
        Err(CheckError::OutOfMemory) => Err(AllocError),
    }
}

/// The units of the first existing plant in a year, and 0 where there is none.
fn first_units(alloc: Global, deck: &TypedDeck, year: u64) -> Result<u64, AllocError> {
    if year < 1 || year > deck.years() {
        return Ok(0);
    }
    let system = deck.system(alloc, year).map_err(|_| AllocError)?;
    Ok(system.existing().first().map_or(0, |plant| plant.units))
}

#[test]
fn units_come_and_go_in_their_years(rt: HostRuntime) -> Result<(), Fail> {
    let alloc = rt.alloc();
    let deck = typed(alloc, "ADD 1 2 1;RETIRE 1 3 3")?.expect(&rt, "the deck has no fault");
    for (year, units) in [(1, 2), (2, 3), (3, 0)] {
        assert_eq!(rt; first_units(alloc, &deck, year)?, units, "in year {year}");
    }
    Ok(())
}

/// What a case has in a year: the least count and the width of the first candidate, the margins and limits.
fn case_said(alloc: Global, deck: &TypedDeck, case: u64, year: u64) -> Result<String, AllocError> {
    if case < 1 || case > deck.cases() || year < 1 || year > deck.years() {
        return format!(in alloc; "none");
    }
    let tunnel = deck.tunnel(case, year);
    let margin = deck.margin(case, year);
    let limit = deck.limit(case, year);
    let (least, width) = (tunnel.least.get(0), tunnel.width.get(0));
    format!(in alloc;
        "{least} {width} {} {} {} {}",
        margin.low, margin.high, limit.worst, limit.average
    )
}

#[test]
fn statements_of_a_case_hold_from_their_year_on(rt: HostRuntime) -> Result<(), Fail> {
    let alloc = rt.alloc();
    let edits =
        "TUNNEL 1 2 1 2 0 0;MARGIN 1 3 10500 15000;LOLP 1 2 20 10;CASES 2;TUNNEL 2 1 2 0 0 0;MARGIN 2 1 1 2;LOLP 2 1 3 4";
    let deck = typed(alloc, edits)?.expect(&rt, "the deck has no fault");
    for (case, year, want) in [
        (1, 1, "0 3 10000 20000 1000000000 1000000000"),
        (1, 2, "1 2 10000 20000 20 10"),
        (1, 3, "1 2 10500 15000 20 10"),
        (2, 3, "2 0 1 2 3 4"),
    ] {
        let got = case_said(alloc, &deck, case, year)?;
        assert_eq!(rt; got.as_str(), want, "case {case} year {year}");
    }
    Ok(())
}

fn is_named(name: Option<Name>, text: &str) -> bool {
    match name {
        Some(name) => name.as_bytes() == text.as_bytes(),
        None => false,
    }
}

#[test]
fn a_plant_has_the_name_of_its_statement(rt: HostRuntime) -> Result<(), Fail> {
    let deck = typed(rt.alloc(), "")?.expect(&rt, "the deck has no fault");
    assert_eq!(rt; (deck.years(), deck.cases(), deck.width()), (3, 1, 2));
    assert!(rt; is_named(deck.plant_name(PlantId::Existing(1)), "OLD"));
    assert!(rt; is_named(deck.plant_name(PlantId::Thermal(1)), "GAS"));
    assert!(rt; is_named(deck.plant_name(PlantId::Hydro(1)), "DAM"));
    assert!(rt; deck.plant_name(PlantId::Hydro(2)).is_none());
    Ok(())
}

#[test]
fn the_economy_has_the_demand_of_each_year(rt: HostRuntime) -> Result<(), Fail> {
    let alloc = rt.alloc();
    let deck = typed(alloc, "VERSION 2;ENSMORE 5 6;ESCALATE 7 8")?.expect(
        &rt,
        "the deck has no fault",
    );
    let economy = deck.economy(alloc).map_err(|_| AllocError)?;
    let costs = economy.costs();
    assert_eq!(rt;
        (costs.years, costs.version, costs.rates.foreign),
        (3, 2, 800)
    );
    assert_eq!(rt;
        (
            costs.shortage.plain,
            costs.shortage.linear,
            costs.shortage.square
        ),
        (100_000, 5, 6)
    );
    assert_eq!(rt;
        (costs.escalation.domestic, costs.escalation.foreign),
        (7, 8)
    );
    // 300 MW less half of 299 * 300 / 2 / 300 MW, for 8,760 hours; then 310 and 320 MW.
    for (demand, want) in costs
        .demand
        .as_slice()
        .iter()
        .zip([1_973_190, 2_038_890, 2_104_590])
    {
        assert_eq!(rt; *demand, want);
    }
    for plant in costs.plants.as_slice() {
        assert!(rt; plant.full == 100 && plant.units.as_slice() == [2, 2, 2].as_slice());
    }
    Ok(())
}
