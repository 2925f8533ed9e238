//! Hydro groups and the water of their projects.
use crate::listed::Listed;

/// The water of a hydro project in a period under one condition.
#[derive(Clone, Copy, Debug, PartialEq, Eq)]
pub struct Water {
    /// The base block, 0 to 20,000 MW.
    pub base: u64,
    /// The peak block, 0 to 20,000 MW.
    pub peak: u64,
    /// The energy of the peak block, 0 to 200,000,000 MWh in the period.
    pub energy: u64,
}

/// The water of each project: that of project j in period m under condition i, each counted from 1,
/// stands at `((j - 1) * periods + m - 1) * conditions + i - 1`.
pub type WaterTable = Listed<Water>;

/// A hydro group. Its projects 1 to `existing` stand, and those up to `existing + greatest` can be built.
#[derive(Debug, Drop)]
pub struct Group {
    /// 1 or 2.
    pub number: u64,
    /// The projects that stand, 0 to 15.
    pub existing: u64,
    /// The greatest count of candidate projects, 0 to 15.
    pub greatest: u64,
    /// The water of the projects 1 to `existing + greatest`.
    pub water: WaterTable,
}
