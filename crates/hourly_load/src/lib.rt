//! Hourly loads to the shape of a load duration curve, with its error.
//!
//! LOADSY (IAEA Computer Manual Series No. 16) begins with a load duration curve; utilities have hourly
//! loads. This crate stands on `deck_lines` for the words, numbers and faults of a line, on `plant_data` for
//! shapes, and on `load_curves` for the curve through the points. The contract that the layer above uses:
//! `shape_of` answers the peak, the points, the energy and the error that `specs` defines of the loads, and the
//! points meet the form of a SHAPE statement. `read_load` reads a line of loads, and `write_hourly` appends
//! what is printed.
//!
//! The points, their rounding and the error are this program's own. Limits: 8,784 loads, the hours of a leap
//! year, of at most 65,535 MW, and 2 to 64 points.
#![tactic(auto)]

mod laws;
mod line;
mod scan;
mod shape;
mod tally;
mod text;

pub use laws::hourlies_are_one;
pub use line::{LoadLine, read_load};
pub use scan::number;
pub use shape::{Hourly, MAX_LOADS, shape_of};
pub use text::write_hourly;
