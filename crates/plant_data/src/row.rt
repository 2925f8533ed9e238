//! What a simulation answers, and what a case asks of a configuration.
ghost use Rattle.std.specs.Prelude.{◌↔◌, IsTrue};
ghost use Rattle.plant_data.specs.Accepted.{IsAccepted};

use crate::config::Config;

/// What the simulation of a year answers, weighted over the hydro conditions but for the shorts.
#[derive(Clone, Copy, Debug, PartialEq, Eq)]
pub struct Row {
    /// Domestic fuel, in thousandths of a cent, below 2^63.
    pub fuel_domestic: u64,
    /// Foreign fuel, in thousandths of a cent, below 2^63.
    pub fuel_foreign: u64,
    /// Variable cost, in cents, below 2^49.
    pub variable: u64,
    /// Energy not served, in MWh, below 2^32.
    pub unserved: u64,
    /// The greatest loss-of-load probability of a period, in parts of `ONE`, at most `ONE`.
    pub worst: u64,
    /// The average loss-of-load probability of the periods, in parts of `ONE`, at most `ONE`.
    pub average: u64,
    /// Energy not served under hydro condition 1, in MWh, below 2^32; 0 where there is no such condition.
    pub short1: u64,
    /// The same under condition 2.
    pub short2: u64,
    /// The same under condition 3.
    pub short3: u64,
    /// The same under condition 4.
    pub short4: u64,
    /// The same under condition 5.
    pub short5: u64,
}

/// The counts that a year's tunnel allows: each from least to least + width.
#[derive(Clone, Copy, Debug, PartialEq, Eq)]
pub struct Tunnel {
    /// The least count of each candidate.
    pub least: Config,
    /// How far each count may be above its least one.
    pub width: Config,
}

/// The margins of the installed capacity, in ten-thousandths of the peak, each 0 to 100,000.
#[derive(Clone, Copy, Debug, PartialEq, Eq)]
pub struct Margin {
    /// The least capacity.
    pub low: u64,
    /// The greatest capacity.
    pub high: u64,
}

/// The greatest loss-of-load probabilities that are accepted, in parts of `ONE`, each at most `ONE`.
#[derive(Clone, Copy, Debug, PartialEq, Eq)]
pub struct Limit {
    /// In the worst period.
    pub worst: u64,
    /// On the average of the periods.
    pub average: u64,
}

/// Whether a row keeps its limits. A probability equal to its limit is accepted.
pub fn accepted(row: &Row, limit: &Limit) -> bool
    ensures { IsTrue result ↔ IsAccepted row.now limit.now }
{
    row.worst <= limit.worst && row.average <= limit.average
}
