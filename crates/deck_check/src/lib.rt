//! The fault table of a deck: its first fault, and the readings of statements that the table needs.
//!
//! FIXSYS and VARSYS of the IAEA's Computer Manual Series No. 16 read the existing and the candidate
//! plants; this crate reads them, with loads and cases, from a deck's statements, and says where they do not
//! fit together. It stands on `deck_lines` and, for greatest peaks and numbers of configurations, on
//! `year_system`. The contract that the layers above use: `first_fault` answers exactly the first row of the
//! table that the deck meets, with its least numbers; a deck has one fault at most; and each reading is what
//! its definition says of the deck, within the range of its form.
//!
//! The table and the defaults are this program's own. Limits: 30 years, 8 cases, 14 candidates.
#![tactic(auto)]

mod candidates;
mod fault;
mod plants;
mod readings;
mod rows;
mod search;
mod spans;
mod table;

pub use candidates::width;
pub use fault::DeckFault;
pub use plants::{
    GROUPS, PLANTS, THERMAL, fuel, full, greatest_units, least, plant_number, projects, units_in,
};
pub use readings::{
    cases, is_there, number, number_at, numbers, periods, step, version, weights, years,
};
pub use search::{faults_are_met, faults_are_single, first_fault};
