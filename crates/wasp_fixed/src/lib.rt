//! The fixed-point numbers of the planner: constants, floors and discount factors.
//!
//! Probabilities, shares of time and discount factors are whole parts of `ONE`; outage rates and
//! availabilities are whole parts of `M`. No floating point is used anywhere, so each result is the
//! same on every machine. The formulas of the discount factors are this program's own; present worth
//! is that of the IAEA's Computer Manual Series No. 16.
//!
//! The definitions of curves as functions of the place on the grid stand here too, since each crate
//! on curves speaks of them. Nothing here refuses or takes memory.
#![tactic(auto)]

mod discounts;
mod memory;
mod numbers;

pub use discounts::{discount, half_factor, middle};
pub use memory::OutOfMemory;
pub use numbers::{M, ONE, mul_div_floor};
