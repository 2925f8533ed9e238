//! The k best plans of a case.
//!
//! This stands on `plan_program`, whose one best plan of DYNPRO in the IAEA's Computer Manual Series No. 16 is
//! the first of these; the list of runners-up is this program's own. The contract that the layers above use:
//! `best` answers the first k of all admissible plans by cost, then by the last configuration, then by the one
//! before it, and so on backwards, each with its cost.
//!
//! The definition speaks of whole plans as lists. For each configuration of a year the k best ways to it are
//! kept, each with all its configurations, and those of the year before it. The time grows with the product of
//! the numbers of entries of neighbouring years, and at most with k.
#![tactic(auto)]

mod offers;
mod ranked;
mod ranking;
mod reach;

pub use ranked::Ranked;
pub use ranking::{best, rankings_are_one};
