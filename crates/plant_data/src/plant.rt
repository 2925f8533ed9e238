//! Plants of equal units, their units, and the rule of loading.

/// A plant of equal units: an existing plant, or a thermal candidate at its greatest count.
///
/// Capacities are in MW of electric output, heat in kcal per kWh, fuel prices in cents per million kcal.
#[derive(Clone, Copy, Debug, PartialEq, Eq)]
pub struct Plant {
    /// 1 to 40 for an existing plant, 40 + k for thermal candidate k, from 1 to 12.
    pub number: u64,
    /// The units that stand, or a candidate's greatest count, 0 to 128.
    pub units: u64,
    /// The base block of a unit, 1 to 20,000 MW.
    pub least: u64,
    /// A whole unit, 1 to 20,000 MW.
    pub full: u64,
    /// The heat rate at least load, 0 to 50,000 kcal/kWh.
    pub heat: u64,
    /// The heat rate of what is above least load, 0 to 50,000 kcal/kWh.
    pub inc: u64,
    /// The domestic part of the fuel price, 0 to 50,000 cents per million kcal.
    pub domestic: u64,
    /// The foreign part of the fuel price, 0 to 50,000 cents per million kcal.
    pub foreign: u64,
    /// The variable cost of operation, 0 to 100,000 cents per MWh.
    pub variable: u64,
    /// The forced outage rate, 0 to 10,000 parts of `M`.
    pub outage: u64,
    /// The scheduled maintenance, 0 to 8,760 hours per year.
    pub repair: u64,
}

/// One unit of a plant, with the fields of its plant.
#[derive(Clone, Copy, Debug, PartialEq, Eq)]
pub struct Unit {
    /// The number of its plant, 1 to 52.
    pub plant: u64,
    /// Its number in the plant, from 1 on.
    pub unit: u64,
    /// Its base block, 1 to 20,000 MW.
    pub least: u64,
    /// The whole unit, 1 to 20,000 MW.
    pub full: u64,
    /// The heat rate at least load, 0 to 50,000 kcal/kWh.
    pub heat: u64,
    /// The heat rate of what is above least load, 0 to 50,000 kcal/kWh.
    pub inc: u64,
    /// The domestic part of the fuel price, 0 to 50,000 cents per million kcal.
    pub domestic: u64,
    /// The foreign part of the fuel price, 0 to 50,000 cents per million kcal.
    pub foreign: u64,
    /// The variable cost of operation, 0 to 100,000 cents per MWh.
    pub variable: u64,
    /// The forced outage rate, 0 to 10,000 parts of `M`.
    pub outage: u64,
    /// The scheduled maintenance, 0 to 8,760 hours per year.
    pub repair: u64,
}

/// The rule by which blocks are put in order.
#[derive(Clone, Copy, Debug, PartialEq, Eq)]
pub enum Rule {
    /// All blocks by cost.
    Merit,
    /// All base blocks by cost, and after them all peak blocks by cost.
    BaseFirst,
}
