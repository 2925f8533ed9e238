//! What stands behind each head word: the one table of statements.
ghost use Rattle.std.specs.Prelude.{◌≡◌};
ghost use Rattle.deck_lines.specs.Statements as spec;

use crate::head_word::HeadWord;

/// What a number of a field may be.
#[derive(Clone, Copy, Debug, PartialEq, Eq)]
pub enum Kind {
    /// From the first to the second, both included.
    Number(u64, u64),
    /// How many equal parts a year has: 1, 2, 3, 4, 6 or 12.
    Periods,
}

/// What word stands between the index numbers and the fields.
#[derive(Clone, Copy, Debug, PartialEq, Eq)]
pub enum Naming {
    Unnamed,
    /// A name of 1 to 8 bytes.
    Named,
    /// `MERIT` or `BASE`.
    Rule,
}

/// Index numbers, a name, and from `least` to `most` groups of fields.
#[derive(Clone, Copy, Debug)]
pub struct Form {
    pub index: &'static [Kind],
    pub naming: Naming,
    pub group: &'static [Kind],
    pub least: usize,
    pub most: usize,
}

pub(crate) const YEAR: Kind = Kind::Number(1, 30);

pub(crate) const CASE: Kind = Kind::Number(1, 8);

const PLANT: Kind = Kind::Number(1, 40);

const CANDIDATE: Kind = Kind::Number(1, 12);

const GROUP: Kind = Kind::Number(1, 2);

const PROJECT: Kind = Kind::Number(1, 30);

const PERIOD: Kind = Kind::Number(1, 12);

const FUEL: Kind = Kind::Number(1, 20);

const SHAPE: Kind = Kind::Number(1, 100);

/// Units of a plant, and counts of candidates.
pub(crate) const UNITS: Kind = Kind::Number(0, 128);
/// Megawatts of a block of a unit.
const BLOCK: Kind = Kind::Number(1, 20_000);
/// Kilocalories per kWh, cents per million kcal, dollars per kW.
const RATED: Kind = Kind::Number(0, 50_000);
/// Ten-thousandths, hundredths of a percent, cents per kW and month, dollars of fuel per kW.
const PARTS: Kind = Kind::Number(0, 10_000);
/// Cents per MWh not served.
const UNSERVED: Kind = Kind::Number(0, 10_000_000);
/// Megawatts of a project.
const WATER: Kind = Kind::Number(0, 20_000);
/// MWh of a project in a period.
const ENERGY: Kind = Kind::Number(0, 200_000_000);
/// Cents per MWh, and ten-thousandths of the peak.
const WIDE: Kind = Kind::Number(0, 100_000);
/// Parts of one in a loss-of-load probability.
const LOSS: Kind = Kind::Number(0, 1_000_000_000);
/// Years.
const LIFE: Kind = Kind::Number(1, 100);
/// Hours of maintenance in a year.
const REPAIR: Kind = Kind::Number(0, 8760);

/// Hundredths of a percent by which a price rises in a year.
const RISE: Kind = Kind::Number(0, 1000);
/// Megawatts of a peak.
const PEAK: Kind = Kind::Number(1, 400_000);
/// Projects of a hydro group.
const SITES: Kind = Kind::Number(0, 15);

/// Units, least and full, heat and inc, fuel, fixed, variable, outage, repair.
const PLANT_FIELDS: &[Kind] = &[
    UNITS, BLOCK, BLOCK, RATED, RATED, FUEL, PARTS, WIDE, PARTS, REPAIR,
];

/// Those of a plant, its greatest count in the place of the units, and capdom, capfor, stock, life.
const THERMAL_FIELDS: &[Kind] = &[
    UNITS, BLOCK, BLOCK, RATED, RATED, FUEL, PARTS, WIDE, PARTS, REPAIR, RATED, RATED, PARTS, LIFE,
];

/// Capacity, capdom, capfor, life.
const PROJECT_FIELDS: &[Kind] = &[WATER, RATED, RATED, LIFE];

/// Base, peak, energy.
const WATER_FIELDS: &[Kind] = &[WATER, WATER, ENERGY];

impl Kind {
    /// Whether the number is in the range.
    pub(crate) fn allows(self, n: u64) -> bool
        ensures { result ≡ spec.allows self n }
    {
        match self {
            Kind::Number(low, high) => low <= n && n <= high,
            Kind::Periods => n == 1 || n == 2 || n == 3 || n == 4 || n == 6 || n == 12,
        }
    }
}

impl Form {
    pub(crate) fn repeated(
        index: &'static [Kind],
        group: &'static [Kind],
        least: usize,
        most: usize,
    ) -> Form
        ensures { spec.laid_out result ≡ spec.repeated index.now group.now least most }
    {
        Form {
            index,
            naming: Naming::Unnamed,
            group,
            least,
            most,
        }
    }

    fn once(index: &'static [Kind], group: &'static [Kind]) -> Form
        ensures { spec.laid_out result ≡ spec.once index.now group.now }
    {
        Form::repeated(index, group, 1, 1)
    }

    fn named(index: &'static [Kind], group: &'static [Kind]) -> Form
        ensures { spec.laid_out result ≡ spec.named index.now group.now }
    {
        Form {
            index,
            naming: Naming::Named,
            group,
            least: 1,
            most: 1,
        }
    }

    fn rule() -> Form
        ensures { spec.laid_out result ≡ spec.ruled }
    {
        Form {
            index: &[],
            naming: Naming::Rule,
            group: &[],
            least: 0,
            most: 0,
        }
    }

    /// What stands behind a head word.
    pub(crate) fn of(word: HeadWord) -> Form
        ensures { spec.laid_out result ≡ spec.layout_of word }
    {
        match word {
            HeadWord::Years => Form::once(&[], &[YEAR]),
            HeadWord::Periods => Form::once(&[], &[Kind::Periods]),
            HeadWord::Rate => Form::once(&[], &[PARTS, PARTS]),
            HeadWord::Ens => Form::once(&[], &[UNSERVED]),
            HeadWord::Rule => Form::rule(),
            HeadWord::Cases => Form::once(&[], &[CASE]),
            HeadWord::Conditions => Form::repeated(&[], &[PARTS], 1, 5),
            HeadWord::Shape => Form::repeated(&[SHAPE], &[PARTS, PARTS], 2, 64),
            HeadWord::Fuel => Form::once(&[FUEL], &[RATED, RATED]),
            HeadWord::Load => Form::repeated(&[YEAR], &[PEAK, SHAPE], 1, 12),
            HeadWord::Plant => Form::named(&[PLANT], PLANT_FIELDS),
            HeadWord::Add => Form::once(&[PLANT, YEAR], &[UNITS]),
            HeadWord::Retire => Form::once(&[PLANT, YEAR], &[UNITS]),
            HeadWord::Thermal => Form::named(&[CANDIDATE], THERMAL_FIELDS),
            HeadWord::Hydro => Form::named(&[GROUP], &[SITES, SITES, PARTS]),
            HeadWord::Project => Form::once(&[GROUP, PROJECT], PROJECT_FIELDS),
            HeadWord::Water => Form::repeated(&[GROUP, PROJECT, PERIOD], WATER_FIELDS, 1, 5),
            HeadWord::Tunnel => Form::repeated(&[CASE, YEAR], &[UNITS, UNITS], 1, 14),
            HeadWord::Margin => Form::once(&[CASE, YEAR], &[WIDE, WIDE]),
            HeadWord::Lolp => Form::once(&[CASE, YEAR], &[LOSS, LOSS]),
            HeadWord::Version => Form::once(&[], &[Kind::Number(1, 2)]),
            HeadWord::EnsMore => Form::once(&[], &[UNSERVED, UNSERVED]),
            HeadWord::Escalate => Form::once(&[], &[RISE, RISE]),
            HeadWord::Grid => Form::once(&[], &[Kind::Number(1, 20)]),
        }
    }
}
