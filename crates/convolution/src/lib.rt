//! The equivalent load: units convolved onto a load duration curve, the inner step of MERSIM
//! (IAEA Computer Manual Series No. 16, after Baleriaux and Booth).
//!
//! A `Curve` is a list of cells, each a share of time in parts of `ONE`, with room for a fixed number
//! of them. Cells past the list are 0, and below 0 each curve is `ONE`. The crate stands on
//! `wasp_fixed` alone.
//!
//! The layer above uses one contract: after `Curve::convolve` each cell is the mean over the unit's
//! two states, rounded down once, so each unit puts the curve at most one part of `ONE` more below
//! the exact load. That rounding is this program's own.
//!
//! Limits: a room of 65,536 cells, and sums of cells up to cell 131,072. `Curve::with_room` is the
//! only call that takes memory, and nothing else is refused.
#![tactic(auto)]

mod curve;
mod kernel;
mod laws;
mod slices;

pub use curve::Curve;
pub use laws::loads_are_near_exact;
