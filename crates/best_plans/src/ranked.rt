//! Plans with their costs.
use plan_program::Plan;
use plant_data::{Config, Listed};

/// A plan and its cost, in dollars of present worth at the beginning of year 1.
#[derive(Debug, Drop)]
pub struct Ranked {
    /// Its configurations, one a year from year 1 on.
    pub configs: Plan,
    /// Its cost.
    pub total: u64,
}

/// A configuration with the best ways to it, the best first.
#[derive(Drop)]
pub struct Reached {
    pub config: Config,
    pub ways: Listed<Ranked>,
}
