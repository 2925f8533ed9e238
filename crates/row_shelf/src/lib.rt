//! The shelf of a run: the book of its year systems and the rows that are kept, as one type.
//!
//! The module MERSIM of the IAEA's Computer Manual Series No. 16 leaves out what was already simulated. A [`Shelf`]
//! gives systems their numbers, has the rows of asked keys filled by engines (`sim_sweep`), and gives the table of a
//! case from its rows. Codes and demands stay inside: callers speak of keys, a system with a configuration. The
//! contract that the layers above use: after `fill` the row of each asked key is there, all from before stay, no others
//! come, and each new key was simulated once by one of the engines.
//!
//! The keys whose rows are not there go to the engines in the order in which neighbours share most.
//!
//! One shelf is the memory of a session. Only want of memory is refused, and it leaves the rows as before.
#![tactic(auto)]

mod demands;
mod interning;
mod neighbours;
mod rooms;
mod shelf;

pub use shelf::{CaseLists, Shelf};
