//! What a deck without a fault says: systems, costs, tunnels, margins, limits and names.
//!
//! FIXSYS, VARSYS and CONGEN of the IAEA's Computer Manual Series No. 16 give the later modules the existing
//! and the candidate plants and what each year may choose from; a `TypedDeck` gives them here. It stands on
//! `deck_check`, `year_system`, `cost_terms` and `load_curves`. The contract that the layers above use: `check`
//! refuses exactly with the deck's fault, and each reading of a `TypedDeck` is what its definition says of the
//! deck, with every condition of the calls that take it.
//!
//! Limits: 30 years, 8 cases, 14 candidates; a demand below 2^32 MWh a year.
#![tactic(auto)]

mod cases;
mod economy;
mod error;
mod names;
mod parts;
mod typed;

pub use error::CheckError;
pub use names::{Name, PlantId};
pub use typed::{TypedDeck, check};
