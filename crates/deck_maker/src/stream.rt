//! The random numbers of trial decks.
ghost use Rattle.std.specs.Prelude.{◌≡◌, ◌+◌, ◌<◌, ◌≤◌};
ghost use Rattle.deck_maker.specs.Ranges.{IsDrawn};
ghost use Rattle.deck_maker.specs.Stream as spec;
ghost use Rattle.deck_maker.specs.TrialDeck.{machine};

use std::marker::Model;

/// The multiplier of the generator.
const MULTIPLIER: u64 = 1_664_525;
/// What the generator adds.
const INCREMENT: u64 = 1_013_904_223;
/// One above the greatest state.
const MODULUS: u64 = 1 << 32;
/// The low bits of a state, which repeat soon, are not used.
const LOW: u64 = 1 << 16;

/// A seed's random numbers, one after the other. Contracts see the seed and how many were drawn.
#[derive(Debug, Drop)]
pub(crate) struct Stream {
    seed: u64,
    drawn: u64,
    state: u64,
}

impl Model for Stream {
    ghost use Rattle.std.specs.Prelude.{◌≡◌};
    ghost use Rattle.deck_maker.specs.Stream.{Place, state_behind};

    ghost Value = { Place };

    ghost view = { λ s. record { seed = s.seed; drawn = s.drawn } };

    ghost invariant = { λ s. s.state ≡ state_behind s.seed s.drawn };
}

/// What is drawn for a unit.
#[derive(Clone, Copy, Debug)]
pub(crate) struct Machine {
    /// MW of the whole unit.
    pub full: u64,
    /// kcal/kWh of the base block.
    pub heat: u64,
    /// The number of its fuel.
    pub fuel: u64,
    /// Its outage rate, in parts of ten thousand.
    pub outage: u64,
    /// Hours of maintenance in a year.
    pub repair: u64,
}

impl Stream {
    /// The random numbers of a seed, none drawn yet.
    #[tactic(auto, unfolding(crate::specs::Stream::state_behind))]
    pub(crate) fn new(seed: u64) -> Stream
        ensures { result ≡ record { seed = seed; drawn = 0 } }
    {
        Stream {
            seed,
            drawn: 0,
            state: seed % MODULUS,
        }
    }

    /// The next number, below `count`.
    #[tactic(auto, using(crate::proofs::Draws::state_next, crate::proofs::Draws::state_small), unfolding(crate::specs::Stream::draw))]
    pub(crate) fn draw(&mut self, count: u64) -> u64
        requires count { 0 < count }
        requires few { self.old.drawn < 1000 }
        ensures value { result ≡ spec.draw self.old.seed self.old.drawn count }
        ensures next { self.new ≡ record self.old { drawn = self.old.drawn + 1 } }
        ensures below { result < count }
    {
        self.state = (MULTIPLIER * self.state + INCREMENT) % MODULUS;
        self.drawn += 1;
        self.state / LOW % count
    }

    /// The next five numbers, as those of a unit of at least so many MW.
    pub(crate) fn draw_machine(&mut self, smallest: u64) -> Machine
        requires smallest { (30 ≤ smallest) × (smallest ≤ 40) }
        requires few { self.old.drawn < 900 }
        ensures value { result ≡ machine self.old.seed self.old.drawn smallest }
        ensures ranges { IsDrawn result }
        ensures next { self.new ≡ record self.old { drawn = self.old.drawn + 5 } }
    {
        let full = smallest + self.draw(40);
        let heat = 2400 + self.draw(400);
        let fuel = 1 + self.draw(2);
        let outage = 300 + self.draw(700);
        let repair = 400 + self.draw(400);
        Machine {
            full,
            heat,
            fuel,
            outage,
            repair,
        }
    }
}
