//! How many rows were filled on boards.
ghost use Rattle.std.specs.Prelude.{◌≡◌};
ghost use Rattle.sim_engine.specs.Engine.{raised};

use std::marker::Model;

/// A number of rows that sweeps have filled, which stands at the last value of a u64. Contracts see the number. Only
/// `sweep` counts anew.
#[derive(Drop)]
pub struct Tally {
    filled: u64,
}

impl Model for Tally {
    ghost use Rattle.std.specs.Prelude.{ℕ};

    ghost Value = { ℕ };

    ghost view = { λ t. t.filled };
}

impl Tally {
    /// None.
    pub fn new() -> Tally
        ensures { result ≡ 0 }
    {
        Tally { filled: 0 }
    }

    /// The number.
    pub fn filled(&self) -> u64
        ensures { result ≡ self.now }
    {
        self.filled
    }

    /// Adds what another has counted.
    pub fn add(&mut self, other: Tally)
        ensures { self.new ≡ raised other self.old }
    {
        self.count(other.filled);
    }

    /// Counts rows that a sweep has filled.
    #[tactic(auto, using(crate::proofs::TallySteps::raised_to))]
    pub(crate) fn count(&mut self, filled: u64)
        ensures { self.new ≡ raised filled self.old }
    {
        self.filled = self.filled.saturating_add(filled);
    }
}
