//! A configuration: how many units of each candidate are built.
ghost use Rattle.std.specs.Prelude.{◌≡◌, ◌<◌, ◌≤◌, ◌↔◌, IsTrue, length, replicate, slice_index, slice_set};
ghost use Rattle.plant_data.specs.Configs.{IsAtMost};

use std::cmp::Ordering;
use std::marker::Model;

/// The greatest number of candidates: 12 thermal candidates and 2 hydro groups.
pub const MAX_WIDTH: usize = 14;

/// The greatest count of one candidate.
pub const MAX_COUNT: u64 = 128;

/// One count for each candidate, 1 to 14 counts of 0 to 128: thermal candidates by number, then hydro
/// groups by number. Contracts see the list of the counts, and configurations are ordered as lists are.
#[derive(Clone, Copy, Debug)]
pub struct Config {
    /// The counts, and zeros from `width` on.
    counts: [u8; MAX_WIDTH],
    width: usize,
}

impl Model for Config {
    ghost use Rattle.std.specs.Prelude.{List, ℕ, take};
    ghost use Rattle.plant_data.specs.Configs.{IsPadded, padded, padded_back};

    ghost Value = { List ℕ };

    ghost view = { λ c. take c.width c.counts };

    ghost invariant = { λ c. IsPadded c.counts c.width };

    ghost inverse = { padded };

    ghost inverse_ok = { padded_back };
}

impl Config {
    /// No unit of any of `width` candidates.
    pub fn zero(width: usize) -> Config
        requires low { 1 ≤ width }
        requires high { width ≤ MAX_WIDTH }
        ensures { result ≡ replicate width 0 }
    {
        Config {
            counts: [0; MAX_WIDTH],
            width,
        }
    }

    /// The number of candidates.
    pub fn width(&self) -> usize
        ensures value { result ≡ length self.now }
        ensures low { 1 ≤ result }
        ensures high { result ≤ MAX_WIDTH }
    {
        self.width
    }

    /// The count of the candidate at place `k`, counted from 0.
    pub fn get(&self, k: usize) -> u64
        requires { k < length self.now }
        ensures value { result ≡ slice_index self.now k }
        ensures small { result ≤ MAX_COUNT }
    {
        u64::from(self.counts[k])
    }

    /// Puts a count in the place `k` of its candidate, counted from 0.
    pub fn set(&mut self, k: usize, count: u64)
        requires within { k < length self.old }
        requires small { count ≤ MAX_COUNT }
        ensures { self.new ≡ slice_set self.old k count }
    {
        self.counts[k] = count as u8;
    }

    fn counts(&self) -> &[u8]
        ensures { result.now ≡ self.now }
    {
        &self.counts[..self.width]
    }

    /// Whether no count is above that of `other`.
    pub fn at_most(&self, other: &Config) -> bool
        requires { length self.now ≡ length other.now }
        ensures { IsTrue result ↔ IsAtMost self.now other.now }
    {
        for k in 0..self.width {
            if self.counts[k] > other.counts[k] {
                return false;
            }
        }
        true
    }
}

impl PartialEq for Config {
    ghost use Rattle.std.specs.Prelude.{◌==◌};
    ghost use Rattle.std.specs.Cmp.Lexicographic.{pointwise, nat_list_eq_equiv};
    ghost use Rattle.std.specs.Cmp.{partial_equiv_from_equiv};

    ghost eq = { pointwise ◌==◌ };

    ghost laws = { partial_equiv_from_equiv nat_list_eq_equiv };

    fn eq(&self, other: &Config) -> bool {
        self.counts() == other.counts()
    }
}

impl Eq for Config {
    ghost use Rattle.std.specs.Cmp.Lexicographic.{nat_list_eq_equiv};

    ghost laws = { nat_list_eq_equiv };
}

impl Ord for Config {
    ghost use Rattle.std.specs.Prelude.{refl};
    ghost use Rattle.std.specs.Ordering.{nat_cmp};
    ghost use Rattle.std.specs.Cmp.Lexicographic.{slice_cmp, nat_list_cmp_total, texts_ties};

    ghost cmp = { slice_cmp nat_cmp };

    ghost total = { nat_list_cmp_total };

    ghost matches_partial_cmp = { λ _ _. refl };

    ghost matches_eq = { texts_ties };

    fn cmp(&self, other: &Config) -> Ordering {
        self.counts().cmp(other.counts())
    }
}

impl PartialOrd for Config {
    ghost use Rattle.std.specs.Ordering.{nat_cmp, as_partial_cmp};
    ghost use Rattle.std.specs.Cmp.Lexicographic.{slice_cmp, texts_po};

    ghost partial_cmp = { as_partial_cmp (slice_cmp nat_cmp) };

    ghost laws = { texts_po };

    fn partial_cmp(&self, other: &Config) -> Option<Ordering> {
        Some(self.cmp(other))
    }
}
