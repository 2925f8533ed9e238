//! The physical system of a year, the book of distinct systems, and the codes of keys.
//!
//! After the modules FIXSYS and VARSYS of the IAEA's Computer Manual Series No. 16, which state what plants
//! and candidates there are: a `YearSystem` is what the simulation of a year depends on, beside the
//! configuration, and nothing more. It stands on `wasp_fixed` and `plant_data`. The contract that the
//! layers above use: years with equal data have one number in the `Book`, and the code of a number with a
//! configuration gives both back.
//!
//! A `YearSystem` has none of a deck's faults in its own data, so no call on one refuses. Its limits are
//! 12 periods, 5 hydro conditions, 40 plants, 12 thermal candidates, 2 hydro groups, 128 thermal units,
//! 65,535 cells of one step, and 2^50 configurations; a book holds 2,048 systems. Only `Book::intern`
//! takes memory. The index, the code and the step of the grid are this program's own.
#![tactic(auto)]

mod book;
mod codes;
mod limits;
mod system;
mod water;

pub use book::Book;
pub use system::YearSystem;
