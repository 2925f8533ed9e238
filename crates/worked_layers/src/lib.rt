//! The worked rows of the middle layer: this crate's tests are the worked rows of the crates from `wasp_fixed` up
//! to `checked_deck`; it has no code.
//!
//! They stand apart so that no crate of code is proved twice. They use public calls alone.
#![tactic(auto)]

#[cfg(test)]
mod blocks;
#[cfg(test)]
mod curves;
#[cfg(test)]
mod decks;
#[cfg(test)]
mod factors;
#[cfg(test)]
mod faults;
#[cfg(test)]
mod lines;
#[cfg(test)]
mod orders;
#[cfg(test)]
mod records;
#[cfg(test)]
mod tunnels;
#[cfg(test)]
mod typed;
#[cfg(test)]
mod years;
