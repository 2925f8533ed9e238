//! How many units and cells a system can take.
ghost use Rattle.std.specs.Prelude.{◌≡◌, ◌*◌, ◌≤◌, length, take};
ghost use Rattle.plant_data.specs.Units.{HasDistinctUnits, units_of};
ghost use Rattle.year_system.specs.System.{Fits, IsSystem, cells, full_mw, greatest_peak, hours, unit_limit, units};

use crate::system::YearSystem;
use plant_data::{Config, Load, Plant, Unit, units_of};

/// The full capacity of plants with all their units, in MW.
pub fn full_mw(plants: &[Plant]) -> u64
    requires { full_mw plants.now ≤ 400000 }
    ensures { result ≡ full_mw plants.now }
{
    let mut total = 0;
    for plant in plants {
        total += plant.units * plant.full;
    }
    total
}

/// The units of plants.
fn units(plants: &[Plant]) -> u64
    requires { units plants.now ≤ 128 }
    ensures { result ≡ units plants.now }
{
    let mut total = 0;
    for plant in plants {
        total += plant.units;
    }
    total
}

/// The greatest peak of the periods, in MW.
fn greatest_peak(loads: &[Load]) -> u64
    ensures { result ≡ greatest_peak loads.now }
{
    let mut most = 0;
    for load in loads {
        most = most.max(load.peak);
    }
    most
}

impl YearSystem {
    /// The hours of a period: 8,760 divided by the number of periods, which leaves no rest.
    pub fn hours(&self) -> u64
        ensures value { result ≡ hours self.now }
        ensures whole { result * length self.now.loads ≡ 8760 }
        ensures valid { IsSystem self.now }
    {
        8760 / self.loads().len() as u64
    }

    /// The cells of one step that the greatest peak and all thermal units at the greatest counts take.
    pub fn cells(&self) -> usize
        ensures value { result ≡ cells self.now }
        ensures small { result ≤ 65535 }
        ensures valid { IsSystem self.now }
    {
        let step = self.step();
        let peak = greatest_peak(self.loads());
        let thermal = full_mw(self.existing()) + full_mw(self.thermal());
        ((peak + step - 1) / step + thermal / step) as usize
    }

    /// The thermal units at the greatest counts.
    pub fn unit_limit(&self) -> usize
        ensures value { result ≡ unit_limit self.now }
        ensures small { result ≤ 128 }
        ensures valid { IsSystem self.now }
    {
        (units(self.existing()) + units(self.thermal())) as usize
    }

    /// Writes the units of a configuration at the start of `room` and answers how many there are: each
    /// unit once, by plant and unit number. It takes no memory.
    pub fn write_units(&self, config: &Config, room: &mut [Unit]) -> usize
        requires fits { Fits self.now config.now }
        requires room { unit_limit self.now ≤ length room.old }
        ensures value { take result room.new ≡ units_of self.now.existing self.now.thermal config.now }
        ensures few { result ≤ unit_limit self.now }
        ensures distinct { HasDistinctUnits (take result room.new) }
        ensures valid { IsSystem self.now }
    {
        units_of(self.existing(), self.thermal(), config, room)
    }
}
