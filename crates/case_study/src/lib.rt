//! The study of a case: the configurations that are listed for each of its years, its table by the rows on a shelf, and
//! the report of its least-cost plan.
//!
//! After the modules CONGEN, DYNPRO and REPROBAT of the IAEA's Computer Manual Series No. 16. It stands on `checked_deck`,
//! `tunnel_configs`, `row_shelf` and `report_text`. The contract that the layers above use: what is listed, tabled and
//! reported of a case is what `specs` defines of the deck, the case and its tunnels.
#![tactic(auto)]

mod generation;
mod laws;
mod listing;
mod planned;
mod report;
mod settling;
mod study;

pub use laws::{refusals_are_one, reports_are_one};
pub use listing::{ListError, list_case, list_cases, own_tunnels, systems_of};
pub use report::{greatest_of, report_case};
pub use settling::table_of;
pub use study::{DeckStudy, Study};
