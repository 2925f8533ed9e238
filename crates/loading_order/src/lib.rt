//! The order in which the blocks of units are loaded, and the maintenance of units over a year.
//!
//! These are the first two steps of MERSIM, the merge and simulate module of WASP-IV. The layer above
//! calls [`order`], which answers the list of all blocks sorted by the keys of the rule, and
//! [`maintenance`], which answers each unit's availability in each period.
//!
//! It stands on `plant_data` for units and the rule, and on `wasp_fixed` for the number `M`.
//! The blocks, the two rules and the placing by falling capacity are those of the IAEA's Computer
//! Manual Series No. 16. What breaks ties, the lower bound on a peak block's cost and the part of a
//! period that a unit is out are this program's own.
//!
//! Limits: units of at most 20,000 MW, 12 periods, 128 units in `maintenance`. Neither call takes
//! memory or refuses: what each needs of its caller is a condition of the call.
#![tactic(auto)]

mod blocks;
mod maintain;
mod periods;

pub use blocks::{Block, Kind, order, order_is_unique};
pub use maintain::{MAX_PERIODS, hours_add_up, maintenance};
pub use periods::MAX_FULL;
