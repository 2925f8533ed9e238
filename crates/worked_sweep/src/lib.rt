//! The worked rows of the sweep: this crate's tests are those of `sim_sweep`; it has no code.
//!
//! They stand apart so that no crate of code is proved twice. They use public calls alone.
#![tactic(auto)]

#[cfg(test)]
mod gas;
#[cfg(test)]
mod meeting;
#[cfg(test)]
mod sweeping;
