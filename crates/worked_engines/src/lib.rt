//! The worked rows of the engines: this crate's tests run the plain and the fast engine side by side, and a tape to
//! its end; it has no code.
//!
//! They stand apart so that no crate of code is proved twice. They use public calls alone.
#![tactic(auto)]

#[cfg(test)]
mod agree;
#[cfg(test)]
mod decks;
#[cfg(test)]
mod tape;
