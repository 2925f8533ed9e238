//! Systems of decks as texts.

use checked_deck::{CheckError, TypedDeck, check};
use deck_lines::{Deck, Line, LineError, Mode, read_line};
use std::alloc::{AllocError, Global};
use year_system::YearSystem;

/// A year of two periods and five conditions: two plants and two candidates with maintenance, and two groups of
/// rivers. All blocks are whole on a grid of 20 MW.
const BASE: &str = "\
VERSION 2\n\
YEARS 1\n\
PERIODS 2\n\
RATE 1000 800\n\
ENS 100000\n\
CONDITIONS 3000 2500 2000 1500 1000\n\
GRID 10\n\
SHAPE 1 0 10000 3000 9000 6000 6000 10000 500\n\
FUEL 1 500 100\n\
FUEL 2 900 0\n\
LOAD 1 600 1 560 1\n\
PLANT 1 OLD 3 20 60 2400 2200 1 0 200 500 600\n\
PLANT 2 COAL 2 40 80 2500 2300 1 0 200 600 500\n\
THERMAL 1 GAS 2 40 80 2300 2100 2 0 100 400 500 500 500 10 25\n\
THERMAL 2 OIL 2 20 40 2600 2500 2 0 100 700 400 400 300 0 25\n\
HYDRO 1 RIVER 1 1 0\n\
HYDRO 2 LAKE 0 1 0\n\
PROJECT 1 1 60 0 0 50\n\
PROJECT 1 2 60 500 0 50\n\
PROJECT 2 1 40 500 0 50\n\
WATER 1 1 1 20 40 30000 20 40 20000 20 40 10000 0 40 9000 0 20 2000\n\
WATER 1 1 2 40 20 25000 20 40 20000 20 40 15000 0 40 9000 0 20 1000\n\
WATER 1 2 1 20 40 30000 20 40 20000 20 40 10000 0 40 9000 0 20 2000\n\
WATER 1 2 2 40 20 25000 20 40 20000 20 40 15000 0 40 8000 0 20 3000\n\
WATER 2 1 1 0 40 12000 0 40 9000 0 40 6000 0 20 3000 0 0 0\n\
WATER 2 1 2 0 40 10000 0 40 8000 0 40 6000 0 20 3000 0 0 0\n\
TUNNEL 1 1 0 2 0 2 0 1 0 1\n\
MARGIN 1 1 0 100000\n\
LOLP 1 1 1000000000 1000000000\n";

/// What a line does to a deck; a line that is no statement does nothing.
fn edit(alloc: Global, deck: &mut Deck, text: &str) -> Result<(), AllocError> {
    match read_line(alloc, Mode::Plan, text.as_bytes()) {
        Ok(Line::Set(statement)) => deck.set(statement).map_err(|_| AllocError),
        Ok(Line::Drop(head)) => {
            deck.drop_head(&head);
            Ok(())
        }
        Ok(_) | Err(LineError::Fault(_)) => Ok(()),
        Err(LineError::OutOfMemory) => Err(AllocError),
    }
}

/// The base deck after edits that semicolons part.
fn edited(alloc: Global, edits: &str) -> Result<Deck, AllocError> {
    let mut deck = Deck::new(alloc);
    for line in BASE.lines() {
        edit(alloc, &mut deck, line)?;
    }
    for line in edits.split(';') {
        edit(alloc, &mut deck, line)?;
    }
    Ok(deck)
}

/// The base deck after edits, if it has no fault.
fn typed(alloc: Global, edits: &str) -> Result<Option<TypedDeck>, AllocError> {
    match check(&edited(alloc, edits)?) {
        Ok(typed) => Ok(Some(typed)),
        Err(CheckError::Fault(_)) => Ok(None),
        Err(CheckError::OutOfMemory) => Err(AllocError),
    }
}

/// The system of the last year of the base deck after edits, if that has no fault.
pub fn last_year(alloc: Global, edits: &str) -> Result<Option<YearSystem>, AllocError> {
    let Some(deck) = typed(alloc, edits)? else {
        return Ok(None);
    };
    let year = deck.years();
    match deck.system(alloc, year) {
        Ok(system) => Ok(Some(system)),
        Err(_) => Err(AllocError),
    }
}
