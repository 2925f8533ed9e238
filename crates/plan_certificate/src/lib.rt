//! Certificates of least-cost plans, read and judged.
//!
//! A report of the planner names an entry for each accepted configuration of each year, and the plan of least
//! cost or a year that has none; that is a certificate, and whoever receives one can confirm it without
//! trusting the planner. It stands beside DYNPRO of the IAEA's Computer Manual Series No. 16; the conditions
//! and the form are this program's own. It stands on `deck_lines` for the lines, on `cost_terms` for the table
//! of a case, and on `plan_program` for the words of plans.
//!
//! The contract that the layers above use: `judge` answers the number of the first condition that fails, or
//! yes, and a yes means that the claim is true: the plan is admissible, costs the total and none costs less,
//! or there is no plan. `read_certificate` answers the certificate that the lines say, or the number of the
//! first line with a fault. At most 30 years, 14 candidates, values below 10^18 dollars. The time of `judge`
//! grows with the product of the numbers of entries of neighbouring years; it takes no memory.
#![tactic(auto)]

mod certificate;
mod gathered;
mod judging;
mod laws;
mod reading;
mod steps;

pub use certificate::{Certificate, Named};
pub use judging::{Verdict, judge};
pub use laws::{
    readings_are_one, said_verdicts_are_one, solutions_are_certified, verdicts_are_one,
    yes_means_true,
};
pub use reading::{CertError, read_certificate};
