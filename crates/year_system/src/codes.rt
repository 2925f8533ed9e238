//! Configurations as numbers in a mixed radix.
ghost use Rattle.std.specs.Prelude.{◌≡◌, ℕ, ◌<◌, ◌≤◌, ◌^◌, List};
ghost use Rattle.year_system.specs.Code.{index_of};
ghost use Rattle.year_system.specs.System.{Fits, greatest, size};

use crate::system::YearSystem;
use plant_data::Config;

/// The index of a configuration among those of its system.
pub fn index_of(system: &YearSystem, config: &Config) -> u64
    requires { Fits system.now config.now }
    ensures value { result ≡ index_of (greatest system.now) config.now }
    ensures small { result < size (greatest system.now) }
    ensures fits { result < 2 ^ 50 }
{
    let width = system.width();
    let mut index = 0;
    for k in 0..width {
        index = index * (system.greatest(k) + 1) + config.get(k);
    }
    index
}

/// The number of configurations of a system.
fn size_of(system: &YearSystem) -> u64
    ensures value { result ≡ size (greatest system.now) }
    ensures small { result ≤ 2 ^ 50 }
{
    let width = system.width();
    let mut size = 1;
    for k in 0..width {
        size = (system.greatest(k) + 1) * size;
    }
    size
}

/// The configuration with an index: the only one that has it.
pub fn config_at(system: &YearSystem, index: u64) -> Config
    requires { index < size (greatest system.now) }
    ensures fits { Fits system.now result }
    ensures value { index_of (greatest system.now) result ≡ index }
    ensures only { (counts : List ℕ) → Fits system.now counts → index_of (greatest system.now) counts ≡ index → counts ≡ result }
{
    let width = system.width();
    let mut config = Config::zero(width);
    let mut size = size_of(system);
    let mut rest = index;
    for k in 0..width {
        size /= system.greatest(k) + 1;
        config.set(k, rest / size);
        rest %= size;
    }
    config
}
