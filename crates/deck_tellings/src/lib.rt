//! What is told of a deck: the reports of a PLAN, the rounds of a search, the best plans of each case, and the verdict on
//! a certificate; and the memory of a run, which keeps the row of each key that a telling demands.
//!
//! A telling goes through the modules of the IAEA's Computer Manual Series No. 16 in their order: the fault table, CONGEN
//! for each case and year, MERSIM for the keys that are new, DYNPRO for each case, REPROBAT for its report. A CHECK goes
//! the same way for its one case, and judges a certificate where a PLAN solves and reports. It stands on `case_study`,
//! `sim_sweep`, `plan_certificate` and `tunnel_search`. The contract that the layers above use: the text is what `specs`
//! defines of the deck, and each demanded key that is new was simulated once.
#![tactic(auto)]

mod answer;
mod best;
mod checking;
mod memory;
mod opened;
mod plan;
mod rounds;
mod searching;
mod solving;

pub use best::{BestOf, rank_deck};
pub use checking::judge_deck;
pub use memory::Memory;
pub use opened::OpenCheck;
pub use plan::plan_deck;
pub use searching::search_deck;
pub use solving::solve_deck;
