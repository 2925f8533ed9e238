//! What hydro plants take from a load duration curve, in the module MERSIM (IAEA Computer Manual
//! Series No. 16): a base block shifts the curve, and a peak block shaves it.
//!
//! The crate stands on `convolution` for curves. Blocks are in cells, energies in MWh, and hours are
//! those of a period times the MW of a cell. The layer above uses two contracts: `shift` and `shave`
//! make each cell what the definition says, where `shave` begins at the least level from which the
//! block takes no more than its energy, which `clip_level` answers.
//!
//! That the level is a whole cell, and the least one, is this program's own.
//!
//! Limits: 600,000 cells of a block, 6,000,000,000 MWh, and 175,200 hours times MW. Nothing is refused
//! and nothing takes memory.
#![tactic(auto)]

mod blocks;
mod laws;

pub use blocks::{clip_level, shave, shift};
pub use laws::{clip_levels_are_least, clip_levels_are_one};
