//! The deck, the book of systems and the kept rows of a run, line by line: what a script's lines say and do.
//!
//! A PLAN, and the ENDCHECK of a CHECK, are told by `deck_tellings`. The contract that the layers above use: a session
//! that has gone through lines tells of the next one exactly what `specs` defines of the lines, and keeps the row of each
//! key that they demand, each simulated once.
//!
//! The limits of 64 PLAN and 64 CHECK lines, and that rows are kept between them, are this program's own. A session
//! that was in want of memory answers `OutOfMemory` from then on.
#![tactic(auto)]

mod command;
mod laws;
mod session;

pub use command::{Command, Step};
pub use laws::{
    costs_never_rise, judgements_are_one, key_lists_are_one, solved_cases_are_one, telling_goes_on,
    telling_of_a_front, tellings_are_one,
};
pub use session::Session;
