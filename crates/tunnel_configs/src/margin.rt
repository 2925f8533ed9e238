//! The margins over the peak, tested in the critical period.
ghost use Rattle.std.specs.Prelude.{◌≡◌, ◌≤◌, ◌↔◌, All, IsTrue, length};
ghost use Rattle.tunnel_configs.specs.Listed.{IsCritical, MeetsMargin};
ghost use Rattle.year_system.specs.Capacity.{capacity};
ghost use Rattle.year_system.specs.System.{Fits, IsLoad};

use plant_data::{Config, Load, Margin};
use year_system::YearSystem;

/// The critical period of a configuration, counted from 0: that with the least capacity above the peak,
/// the earliest of these.
fn critical_period(system: &YearSystem, loads: &[Load], config: &Config) -> usize
    requires fits { Fits system.now config.now }
    requires loads { loads.now ≡ system.now.loads }
    requires periods { 1 ≤ length loads.now }
    requires peaks { All IsLoad loads.now }
    ensures { IsCritical system.now config.now result }
{
    let mut critical = 0;
    let mut least = system.capacity(config, 0);
    for period in 1..loads.len() {
        let capacity = system.capacity(config, period);
        if capacity + loads[critical].peak < least + loads[period].peak {
            critical = period;
            least = capacity;
        }
    }
    critical
}

/// Whether the installed capacity in the critical period lies between the margins.
pub fn meets_margin(system: &YearSystem, loads: &[Load], margin: &Margin, config: &Config) -> bool
    requires fits { Fits system.now config.now }
    requires loads { loads.now ≡ system.now.loads }
    requires periods { 1 ≤ length loads.now }
    requires peaks { All IsLoad loads.now }
    requires low { margin.now.low ≤ 100000 }
    requires high { margin.now.high ≤ 100000 }
    ensures { IsTrue result ↔ MeetsMargin system.now margin.now config.now }
{
    let period = critical_period(system, loads, config);
    let peak = loads[period].peak;
    let capacity = 10_000 * system.capacity(config, period);
    margin.low * peak <= capacity && capacity <= margin.high * peak
}
