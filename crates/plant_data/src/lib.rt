//! The data of a generating system: plants and their units, configurations, load shapes, the water of
//! hydro projects, and the small records that the planner works on.
//!
//! This is the data side of the modules FIXSYS and VARSYS of the IAEA's Computer Manual Series No. 16.
//! It stands on `wasp_fixed` for the parts of one. The contract that the layers above use: `units_of`
//! writes the units of a year, each once, existing plants first, by plant and unit number.
//!
//! A `Config` is seen as the list of its counts, a `Shape` as the list of its points, a `Listed` as the
//! list of its items. The other types are records with public fields, whose ranges stand beside them.
//! Nothing here refuses or takes memory. The limits are the manual's statements' own: 14 candidates,
//! counts of at most 128, and 2 to 64 points of a shape.
#![tactic(auto)]

mod config;
mod listed;
mod listing;
mod plant;
mod row;
mod same;
mod shape;
mod water;

pub use config::{Config, MAX_COUNT, MAX_WIDTH};
pub use listed::Listed;
pub use listing::{units_are_distinct, units_of};
pub use plant::{Plant, Rule, Unit};
pub use row::{Limit, Margin, Row, Tunnel, accepted};
pub use same::Same;
pub use shape::{Load, Point, Shape};
pub use water::{Group, Water, WaterTable};
