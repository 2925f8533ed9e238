//! The lines of a source, in whatever pieces its bytes come.
//!
//! `next_line` is the one contract that the layer above uses: what it takes of the bytes that are told
//! is a line of the text that they are, or it says how the text ends. It stands on `wasp_io`. A line has
//! at most 4,096 bytes without its line feed; the last line of a text may have none.
#![tactic(auto)]

mod bytes;
mod lines;

pub use bytes::{ByteReader, Next};
pub use lines::{Found, LONGEST_LINE, next_line};
