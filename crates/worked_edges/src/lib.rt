//! The worked rows of the edge of the program: this crate's tests are those of `wasp_io` and `line_reader`; it has no
//! code.
//!
//! They stand apart so that no crate of code is proved twice. They use public calls alone.
#![tactic(auto)]

#[cfg(test)]
mod ends;
#[cfg(test)]
mod lines;
