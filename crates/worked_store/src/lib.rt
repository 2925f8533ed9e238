//! The worked rows of the store: this crate's tests are the worked rows of `board_core` and `sim_board`; it has no
//! code.
//!
//! They stand apart so that no crate of code is proved twice. They use public calls alone.
#![tactic(auto)]

#[cfg(test)]
mod board;
#[cfg(test)]
mod machine;
