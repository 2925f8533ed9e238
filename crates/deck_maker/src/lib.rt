//! Trial decks: a deck of any number of years and candidates, made from a number.
//!
//! With them anybody can compare two machines, two engines or two numbers of workers by one line of text.
//! The random numbers and the order in which they are drawn are part of what a trial deck is, so the same
//! numbers give the same deck everywhere. The decks are this program's own; their random numbers are those
//! of a linear congruential generator.
//!
//! Stands on `deck_lines` for decks and, for what is proved of trial decks, on the fault table of
//! `deck_check`. The contract that the layers above use: `make_deck` answers exactly the deck of its three
//! numbers, or that memory is wanting; such a deck meets no row of the fault table, and each year's tunnel has
//! at most 64 configurations.
//!
//! Limits: any seed, 1 to 30 years, 1 to 6 thermal candidates.
#![tactic(auto)]

mod adding;
mod laws;
mod making;
mod stream;

pub use laws::{trials_are_narrow, trials_have_no_fault, trials_have_one_case};
pub use making::make_deck;
