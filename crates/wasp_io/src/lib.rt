//! The edge of the program: where bytes come from and where they go, with a count of faults.
//!
//! A `Source` gives bytes in pieces and a `Sink` takes them in pieces; each keeps a count of the calls
//! that failed, which never falls and stands at the last value of a `u64`. What a contract can say of the
//! bytes is optional: `MemSource` and `MemSink` tell them, `StdSource` and `StdSink`, which stand on real
//! input and output, do not. The layers above use one contract: the count rises exactly where a call fails,
//! no call follows an end or a fault, and, where bytes are told, `take` gives the next bytes left and `put`
//! appends.
//!
//! It stands on `wasp_fixed` alone. What a real reader or writer does is trusted, and one test each runs it.
#![tactic(auto)]

mod memory;
mod sink;
mod source;
mod standard;

pub use memory::{MemSink, MemSource};
pub use sink::{Given, Sink};
pub use source::{Source, Taken};
pub use standard::{StdSink, StdSource};
