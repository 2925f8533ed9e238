//! The rows of the fault table, in order.
ghost use Rattle.std.specs.Prelude.{◌≡◌};
ghost use Rattle.deck_check.specs.Readings.{Says};
ghost use Rattle.deck_check.specs.Order.{row_of};

/// A row of the fault table.
#[derive(Clone, Copy, Debug, PartialEq, Eq)]
pub enum FaultRow {
    /// There is no YEARS.
    NoYears,
    /// There is no PERIODS.
    NoPeriods,
    /// There is no RATE.
    NoRate,
    /// There is no ENS.
    NoEns,
    /// There is no THERMAL and no HYDRO.
    NoCandidate,
    /// A year has no LOAD.
    NoLoad,
    /// A LOAD has not one pair for each period.
    LoadCount,
    /// A LOAD names a shape that is absent.
    NoShape,
    /// A point of a SHAPE is out of order.
    ShapeForm,
    /// A plant names a fuel that is absent.
    NoFuel,
    /// The base block of a plant is greater than its unit.
    Blocks,
    /// There is an ADD or a RETIRE of a plant that is absent.
    NoPlant,
    /// A plant has fewer than 0 units in a year.
    Negative,
    /// The weights' sum is not 10,000.
    Weights,
    /// There is a PROJECT or a WATER of a group that is absent.
    NoGroup,
    /// A project of a group is absent.
    NoProject,
    /// A project has no WATER in a period.
    NoWater,
    /// A WATER has not one triple for each condition.
    WaterCount,
    /// A year can have more than 128 thermal units.
    Units,
    /// A year's thermal capacity and peak are above 65,535 steps or 400,000 MW.
    Power,
    /// There are more than 2^50 configurations.
    Codes,
    /// A case has no TUNNEL, MARGIN or LOLP for year 1.
    NoCase,
    /// A TUNNEL has not one pair for each candidate.
    TunnelCount,
    /// A TUNNEL goes above the greatest count of a candidate.
    TunnelHigh,
    /// A statement of version 2 stands in a deck of version 1.
    OldForm,
    /// A block of a plant is not a multiple of the step.
    StepUnit,
    /// A block of a WATER is not a multiple of the step.
    StepWater,
}

/// The rows in the order in which they are looked at.
pub(crate) const TABLE: [FaultRow; 27] = [
    FaultRow::NoYears,
    FaultRow::NoPeriods,
    FaultRow::NoRate,
    FaultRow::NoEns,
    FaultRow::NoCandidate,
    FaultRow::NoLoad,
    FaultRow::LoadCount,
    FaultRow::NoShape,
    FaultRow::ShapeForm,
    FaultRow::NoFuel,
    FaultRow::Blocks,
    FaultRow::NoPlant,
    FaultRow::Negative,
    FaultRow::Weights,
    FaultRow::NoGroup,
    FaultRow::NoProject,
    FaultRow::NoWater,
    FaultRow::WaterCount,
    FaultRow::Units,
    FaultRow::Power,
    FaultRow::Codes,
    FaultRow::NoCase,
    FaultRow::TunnelCount,
    FaultRow::TunnelHigh,
    FaultRow::OldForm,
    FaultRow::StepUnit,
    FaultRow::StepWater,
];

impl FaultRow {
    /// The number of the row.
    pub(crate) fn number(self) -> u64
        ensures { (d : Says) → result ≡ (row_of self d).number }
    {
        match self {
            FaultRow::NoYears => 1,
            FaultRow::NoPeriods => 2,
            FaultRow::NoRate => 3,
            FaultRow::NoEns => 4,
            FaultRow::NoCandidate => 5,
            FaultRow::NoLoad => 6,
            FaultRow::LoadCount => 7,
            FaultRow::NoShape => 8,
            FaultRow::ShapeForm => 9,
            FaultRow::NoFuel => 10,
            FaultRow::Blocks => 11,
            FaultRow::NoPlant => 12,
            FaultRow::Negative => 13,
            FaultRow::Weights => 14,
            FaultRow::NoGroup => 15,
            FaultRow::NoProject => 16,
            FaultRow::NoWater => 17,
            FaultRow::WaterCount => 18,
            FaultRow::Units => 19,
            FaultRow::Power => 20,
            FaultRow::Codes => 21,
            FaultRow::NoCase => 22,
            FaultRow::TunnelCount => 23,
            FaultRow::TunnelHigh => 24,
            FaultRow::OldForm => 27,
            FaultRow::StepUnit => 28,
            FaultRow::StepWater => 29,
        }
    }
}
