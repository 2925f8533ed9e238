//! The configurations of a year that are worth simulating: those in its tunnel and between its margins.
//!
//! This is the module CONGEN of the IAEA's Computer Manual Series No. 16. It stands on `year_system` for
//! the installed capacity. The contract that the layers above use: `configs` answers exactly the
//! configurations whose counts lie in the tunnel and whose installed capacity in the critical period lies
//! between the margins, each once, in rising order.
//!
//! A tunnel of more than 1,000,000 configurations and a list of more than 500 are refused, the tunnel
//! first. No more than 500 configurations are held at any time. That the margins are tested in the
//! critical period alone, with the capacity under the first hydro condition, is this program's own.
#![tactic(auto)]

mod error;
mod listing;
mod margin;
mod walk;

pub use error::ConfigsError;
pub use listing::{configs, listings_are_one, listings_fit};
