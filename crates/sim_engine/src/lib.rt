//! The simulation of a configuration of a year: the module MERSIM (IAEA Computer Manual Series No. 16,
//! after Baleriaux and Booth).
//!
//! It stands on `year_system` for what is simulated, on `load_curves` and `hydro_shave` for the load that
//! is left for the thermal units, on `loading_order` for their blocks and maintenance, and on
//! `convolution` for the equivalent load. The contract that the layers above use is the trait
//! [`SimEngine`]: `simulate` answers the row of a system and a configuration, within its bounds, counted
//! once and with no memory taken; `detail` writes the generations.
//!
//! Three engines are here: [`PlainEngine`]; [`StackEngine`], which answers the same and keeps curves of `sim_fast`
//! from one run to the next; and [`TapeEngine`], which also tells its runs. The cells, the floors and the order of
//! convolution are this program's own, and so is what is kept.
//!
//! Limits: 65,536 cells and 128 thermal units, 400,000 MW. Only `ready` and `TapeEngine::new` take memory.
#![tactic(auto)]

mod condition;
mod costs;
mod either;
mod engine;
mod fleet;
mod generation;
mod keyed_shelf;
mod laws;
mod lay;
mod laying;
mod load_key;
mod period;
mod plain;
mod rows;
mod shelves;
mod stack;
mod stack_engine;
mod tape;
mod turn_energies;
mod turn_period;
mod water;

pub use engine::SimEngine;
pub use laws::counts_are_sums;
pub use plain::PlainEngine;
pub use stack_engine::StackEngine;
pub use tape::{Run, TapeEngine};
