//! What a certificate is.
ghost use Rattle.std.specs.Prelude.{◌≡◌, ◌<◌, ℕ, length};
ghost use Rattle.plan_certificate.specs.Certificate.{IsCertificate, NamesRise, named_in};

use plan_program::Outcome;
use plant_data::{Config, Listed};
use std::marker::Model;

/// A configuration that is named in a year, with its entry.
#[derive(Clone, Copy, Debug, PartialEq, Eq)]
pub struct Named {
    /// The configuration.
    pub config: Config,
    /// The entry: a number below 10^18, in dollars of present worth at the beginning of year 1, or none.
    pub value: Option<u64>,
}

/// A certificate: for each year the configurations that are named with their entries, in rising order of the
/// configurations, and what is claimed. Contracts see it with its number of years and its width.
#[derive(Debug, Drop)]
pub struct Certificate {
    years: u64,
    width: usize,
    entries: Listed<Listed<Named>>,
    claim: Outcome,
}

impl Model for Certificate {
    ghost use Rattle.plan_certificate.specs.Certificate.{CertData, IsCertificate};

    ghost Value = { CertData };

    ghost view = { λ c. record { years = c.years; width = c.width; entries = c.entries; claim = c.claim } };

    ghost invariant = { λ c. IsCertificate (record { years = c.years; width = c.width; entries = c.entries; claim = c.claim }) };
}

impl Certificate {
    /// The certificate of these parts: what is named in each of the years, 1 to 30, in rising order of the
    /// configurations, each of `width` counts, 1 to 14, with none or an entry below 10^18; and what is claimed over
    /// the same years and counts. It takes no memory.
    pub fn new(years: u64, width: usize, entries: Vec<Listed<Named>>, claim: Outcome) -> Certificate
        requires { IsCertificate (record { years = years; width = width; entries = entries.items; claim = claim }) }
        ensures { result ≡ record { years = years; width = width; entries = entries.items; claim = claim } }
    {
        Certificate {
            years,
            width,
            entries: Listed::new(entries),
            claim,
        }
    }

    /// The number of years, 1 to 30.
    pub fn years(&self) -> u64
        ensures value { result ≡ self.now.years }
        ensures valid { IsCertificate self.now }
    {
        self.years
    }

    /// The number of counts of a configuration, 1 to 14.
    pub fn width(&self) -> usize
        ensures value { result ≡ self.now.width }
        ensures valid { IsCertificate self.now }
    {
        self.width
    }

    /// What is named in a year, counted from 0, in rising order of the configurations.
    pub fn named(&self, year: usize) -> &[Named]
        requires { year < self.now.years }
        ensures value { result.now ≡ named_in self.now year }
        ensures rises { NamesRise result.now }
        ensures valid { IsCertificate self.now }
    {
        self.entries.as_slice()[year].as_slice()
    }

    /// What is claimed: a plan, one configuration for each year, with its total in dollars, or a year that
    /// no plan reaches.
    pub fn claim(&self) -> &Outcome
        ensures value { result.now ≡ self.now.claim }
        ensures valid { IsCertificate self.now }
    {
        &self.claim
    }
}
