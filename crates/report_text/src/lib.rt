//! The text of reports: what is written of each PLAN of a script, and the lines that end the script.
//!
//! REPROBAT of the IAEA's Computer Manual Series No. 16 reports the optimum; this crate writes it as lines,
//! with the costs-to-come of all accepted configurations, by which a plan can be checked. It stands on
//! `plan_program` for the solved case, `cost_terms` for the terms of a year's cost, `checked_deck` for names,
//! `deck_check` for faults, `deck_lines` for line faults, and `plan_certificate` for verdicts. The contract that the
//! layers above use: each writer appends exactly the text that `specs` defines of its arguments, and after want of memory
//! the text is as before. A law says that the text of a report, read as a certificate, says what was solved.
//!
//! The lines are this program's own. Money is in dollars of present worth at the beginning of year 1, energy
//! in MWh, probabilities in parts of `ONE`. Nothing is computed here: the numbers are those it is given.
#![tactic(auto)]

mod case;
mod come;
mod data;
mod laws;
mod numbers;
mod ranking;
mod refusals;
mod rounds;
mod script;
mod trial;
mod verdicts;
mod year;

pub use case::write_case;
pub use data::{CaseReport, Generation, Generations, PlanYear};
pub use laws::reports_read_back;
pub use ranking::{write_no_plan, write_over, write_ranking};
pub use refusals::{Refusal, write_refusal};
pub use rounds::{
    Found, write_barred, write_case_line, write_found, write_inside, write_round, write_rounds_end,
};
pub use script::{
    write_best_heading, write_heading, write_keys, write_malformed, write_search_heading,
};
pub use trial::write_trial;
pub use verdicts::{Judged, write_verdict};
