//! The least-cost plan of a case by dynamic programming.
//!
//! This is the module DYNPRO of the IAEA's Computer Manual Series No. 16. It stands on `cost_terms` for the
//! table of a case and the terms of a year's cost. The contract that the layers above use: `solve` answers
//! for each accepted configuration of each year its cost-to-come, the least cost of all admissible plans that
//! end in it, and the admissible plan of all years that none costs less than; among equals the one with the
//! least last configuration, then the least before it, and so on backwards. Where there is no plan it answers
//! the first year that none reaches.
//!
//! The definitions speak of whole plans as lists. Costs are in dollars of present worth at the beginning of
//! year 1, below 10^18. For each entry the program walks over those of the year before in the order of their
//! potentials, past those that a sieve of counts rules out, and stops where no later one can be cheaper.
#![tactic(auto)]

mod come;
mod laws;
mod sieve;
mod solved;
mod solving;
mod trace;

pub use laws::solutions_are_one;
pub use solved::{CostToCome, Outcome, Plan, Solved};
pub use solving::solve;
