//! Decks of texts, and a deck without a fault.
ghost use Rattle.deck_lines.specs.Grammar.{IsLine};

use deck_lines::{Deck, Line, LineError, Mode, read_line};
use std::alloc::{AllocError, Global};

/// A deck without a fault.
pub const BASE: &str = "\
YEARS 3\n\
PERIODS 1\n\
RATE 1000 800\n\
ENS 100000\n\
SHAPE 1 0 10000 10000 5000\n\
FUEL 1 500 7\n\
LOAD 1 300 1\n\
LOAD 2 310 1\n\
LOAD 3 320 1\n\
PLANT 1 OLD 2 50 100 2000 1900 1 100 200 1000 0\n\
THERMAL 1 GAS 3 100 100 2000 1900 1 100 200 1000 0 500 500 0 20\n\
HYDRO 1 DAM 1 1 50\n\
PROJECT 1 1 30 0 0 50\n\
PROJECT 1 2 30 500 500 50\n\
WATER 1 1 1 10 20 20000\n\
WATER 1 2 1 10 20 20000\n\
TUNNEL 1 1 0 3 0 1\n\
MARGIN 1 1 10000 20000\n\
LOLP 1 1 1000000000 1000000000\n";

/// What a line does to a deck; a line that is no statement does nothing.
pub fn edit(alloc: Global, deck: &mut Deck, text: &str) -> Result<(), AllocError> {
    match read_line(alloc, Mode::Plan, text.as_bytes()) {
        Ok(Line::Set(statement)) => deck.set(statement).map_err(|_| AllocError),
        Ok(Line::Drop(head)) => {
            deck.drop_head(&head);
            Ok(())
        }
        Ok(_) | Err(LineError::Fault(_)) => Ok(()),
        Err(LineError::OutOfMemory) => Err(AllocError),
    }
}

/// The deck of a text, a statement a line.
pub fn deck_of(alloc: Global, text: &str) -> Result<Deck, AllocError> {
    let mut deck = Deck::new(alloc);
    for line in text.lines() {
        edit(alloc, &mut deck, line)?;
    }
    Ok(deck)
}

/// The base deck after edits that semicolons part.
pub fn edited(alloc: Global, edits: &str) -> Result<Deck, AllocError> {
    let mut deck = deck_of(alloc, BASE)?;
    for line in edits.split(';') {
        edit(alloc, &mut deck, line)?;
    }
    Ok(deck)
}
