//! What a case's table leads to.
use plant_data::{Config, Listed};

/// The configurations of a plan, one a year from year 1 on.
pub type Plan = Listed<Config>;

/// For each year one cost-to-come for each entry of its layer, in dollars of present worth at the beginning
/// of year 1, or none where no admissible plan ends in the entry.
pub type CostToCome = Listed<Listed<Option<u64>>>;

/// The chosen plan, or that there is none.
#[derive(Debug, Drop)]
pub enum Outcome {
    /// The least-cost admissible plan and its cost, in dollars of present worth at the beginning of year 1.
    Plan { configs: Plan, total: u64 },
    /// The first year that no admissible plan reaches.
    Infeasible(u64),
}

/// The costs-to-come of a case and its chosen plan.
#[derive(Debug, Drop)]
pub struct Solved {
    pub come: CostToCome,
    pub outcome: Outcome,
}
