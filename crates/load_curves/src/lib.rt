//! The load duration curve of a period, from its peak and the points of its shape: the module LOADSY
//! (IAEA Computer Manual Series No. 16), with straight lines between the points.
//!
//! The crate stands on `plant_data` for shapes and on `convolution` for curves. The layer above uses one
//! contract: `fill_curve` makes the cells of a curve those of the formula, so they never rise and none is
//! above `ONE`. `curve_at` answers one cell of it.
//!
//! The straight lines, the cells and their rounding are this program's own.
//!
//! Limits: a peak of 400,000 MW, a step of 1 to 20 MW, and as many cells as the curve has room for.
//! Nothing is refused and nothing takes memory.
#![tactic(auto)]

mod fill;
mod points;

pub use fill::fill_curve;
pub use points::curve_at;
