//! The store of simulated rows as a pure machine: slots, and actors that work on them, one atomic step at a time.
//!
//! The module MERSIM of the IAEA's Computer Manual Series No. 16 leaves out what was already simulated; the store
//! is how this program does so with many engines at once. Here it is a machine without threads: a slot takes the
//! code of a key, its row words are written, and it is published; the running store (`sim_board`) takes the same
//! steps. It stands on `wasp_fixed`. The one contract used above: after every list of events the state is sound,
//! a code stands in its slot for good, and what is read from a slot known filled is the due word of its code
//! (`run_events`).
//!
//! Machine, home and path are this program's own. A store has at most 2^24 slots, a row 11 words, and the shares
//! of the actors add up to 64. Nothing is claimed of progress, of the order of events, or of time.
#![tactic(auto)]

mod actor;
mod changes;
mod due;
mod enabled;
mod event;
mod home;
mod lay;
mod row;
mod runs;
mod slot;
mod state;
mod store;

pub use actor::{Actor, Hand};
pub use due::Due;
pub use event::{Answer, Event};
pub use home::{home_of, slots_of};
pub use lay::codes_in;
pub use row::{KeptRow, Words};
pub use runs::run_events;
pub use slot::Slot;
pub use state::BoardState;
