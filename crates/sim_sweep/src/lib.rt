//! The rows that are kept over a run, the sweep that fills them, and the settling of cases by them.
//!
//! The module MERSIM of the IAEA's Computer Manual Series No. 16 leaves out what was already simulated: `keep_rows`
//! has 1 to 64 engines simulate each demanded key whose row is not kept, once, by one of them, on a board that their
//! workers share (`sweep`), and keeps its row under the key's code. Then each demanded code is kept with its simulated row,
//! what was kept stays, and nothing else is kept. `case_table` answers the accepted configurations of a case by the kept
//! rows, `solve_table` the least-cost plan over them, and `solve_all` those over several tables side by side.
//!
//! The codes, and that the rows lie in rising order of code, are this program's own. A row is found in a number of
//! steps that grows with the logarithm of the number of rows; a board costs a copy of all rows. Only want of memory is
//! refused, and it leaves the rows as before.
#![tactic(auto)]

mod case;
mod demand;
mod due;
mod keeping;
mod kept;
mod laws;
mod parallel;
mod settling;
mod solving;
mod sweeping;
mod tally;
mod worker;

pub use case::{CaseDone, CaseJob};
pub use demand::Demand;
pub use due::DueRows;
pub use keeping::keep_rows;
pub use kept::Kept;
pub use laws::{
    counts_rise_together, due_rows_stand, due_words_are_of_keys, new_codes_come_once,
    new_runs_come_once,
};
pub use settling::{case_table, solve_table};
pub use solving::solve_all;
pub use sweeping::{split_for, sweep};
pub use tally::Tally;
