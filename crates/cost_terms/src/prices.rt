//! What plants and projects cost, and the rates and prices of an economy.
use plant_data::Listed;

/// A rate in each currency, in hundredths of a percent per year.
#[derive(Clone, Copy, Debug, PartialEq, Eq)]
pub struct Rates {
    /// That of the domestic currency.
    pub domestic: u64,
    /// That of the foreign currency.
    pub foreign: u64,
}

/// The price of energy not served, in cents per MWh, each part 0 to 10,000,000. Where U MWh of a demand of
/// E are not served, each costs `plain + linear * U / E + square * U * U / (E * E)`; the last two count in
/// version 2 alone.
#[derive(Clone, Copy, Debug, PartialEq, Eq)]
pub struct ShortagePrice {
    /// The price of the first MWh.
    pub plain: u64,
    /// What is added by the share of the demand that is not served.
    pub linear: u64,
    /// What is added by the square of that share.
    pub square: u64,
}

/// What an existing plant costs.
#[derive(Debug, Drop)]
pub struct PlantCost {
    /// A whole unit, 1 to 20,000 MW.
    pub full: u64,
    /// The fixed cost, 0 to 10,000 cents per kW and month.
    pub fixed: u64,
    /// The units that stand in each year, from year 1 on, each 0 to 128.
    pub units: Listed<u64>,
}

/// What a unit of a thermal candidate costs.
#[derive(Clone, Copy, Debug, PartialEq, Eq)]
pub struct ThermalCost {
    /// The greatest count, 0 to 128.
    pub greatest: u64,
    /// A whole unit, 1 to 20,000 MW.
    pub full: u64,
    /// The fixed cost, 0 to 10,000 cents per kW and month.
    pub fixed: u64,
    /// The domestic part of the capital cost, 0 to 50,000 dollars per kW.
    pub capdom: u64,
    /// The foreign part of the capital cost, 0 to 50,000 dollars per kW.
    pub capfor: u64,
    /// The fuel inventory, 0 to 10,000 dollars per kW.
    pub stock: u64,
    /// The life, 1 to 100 years.
    pub life: u64,
}

/// What a hydro project costs.
#[derive(Clone, Copy, Debug, PartialEq, Eq)]
pub struct ProjectCost {
    /// The installed capacity, 0 to 20,000 MW.
    pub capacity: u64,
    /// The domestic part of the capital cost, 0 to 50,000 dollars per kW.
    pub capdom: u64,
    /// The foreign part of the capital cost, 0 to 50,000 dollars per kW.
    pub capfor: u64,
    /// The life, 1 to 100 years.
    pub life: u64,
}

/// What the projects of a hydro group cost.
#[derive(Debug, Drop)]
pub struct GroupCost {
    /// The projects that stand, 0 to 15.
    pub existing: u64,
    /// The greatest count of candidate projects, 0 to 15.
    pub greatest: u64,
    /// The fixed cost, 0 to 10,000 cents per kW and month.
    pub fixed: u64,
    /// The projects 1 to `existing + greatest`, in the order in which they are built.
    pub projects: Listed<ProjectCost>,
}

/// What the costs of a case's years depend on, beside configurations and rows.
#[derive(Debug, Drop)]
pub struct CostData {
    /// The years, 1 to 30.
    pub years: u64,
    /// The version of the rules of cost, 1 or 2.
    pub version: u64,
    /// The rates of discount, each 0 to 10,000.
    pub rates: Rates,
    /// The rates by which fuel becomes dearer, each 0 to 1,000.
    pub escalation: Rates,
    /// The price of energy not served.
    pub shortage: ShortagePrice,
    /// The weight of each of 1 to 5 hydro conditions, 0 to 10,000 ten-thousandths.
    pub weights: Listed<u64>,
    /// The demand of each year, in MWh, below 2^32.
    pub demand: Listed<u64>,
    /// The existing plants, at most 40.
    pub plants: Listed<PlantCost>,
    /// The thermal candidates by number, at most 12.
    pub thermal: Listed<ThermalCost>,
    /// The hydro groups by number, at most 2.
    pub groups: Listed<GroupCost>,
}
