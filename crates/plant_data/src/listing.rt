//! The units of a year.
ghost use Rattle.std.specs.Prelude.{◌≡◌, ◌+◌, ◌≤◌, ◌++◌, length, take};
ghost use Rattle.plant_data.specs.Units.{UnitsAreDistinct, candidate_units, existing_units, plant_units, units_of};

use crate::config::Config;
use crate::plant::{Plant, Unit};

/// Writes the first `count` units of a plant from place `at` on.
fn write_units(plant: &Plant, count: u64, at: usize, room: &mut [Unit]) -> usize
    requires fits { at + count ≤ length room.old }
    ensures value { take result room.new ≡ take at room.old ++ plant_units plant.now count }
    ensures end { result ≡ at + count }
{
    let mut end = at;
    for n in 0..count {
        room[end] = Unit {
            plant: plant.number,
            unit: n + 1,
            least: plant.least,
            full: plant.full,
            heat: plant.heat,
            inc: plant.inc,
            domestic: plant.domestic,
            foreign: plant.foreign,
            variable: plant.variable,
            outage: plant.outage,
            repair: plant.repair,
        };
        end += 1;
    }
    end
}

/// Writes the units of the existing plants at the start of the room.
fn write_existing(existing: &[Plant], room: &mut [Unit]) -> usize
    requires { length (existing_units existing.now) ≤ length room.old }
    ensures value { take result room.new ≡ existing_units existing.now }
    ensures end { result ≡ length (existing_units existing.now) }
{
    let mut end = 0;
    for plant in existing {
        end = write_units(plant, plant.units, end, room);
    }
    end
}

/// Writes the units of the candidates from place `at` on.
fn write_candidates(candidates: &[Plant], config: &Config, at: usize, room: &mut [Unit]) -> usize
    requires counted { length candidates.now ≤ length config.now }
    requires fits { at + length (candidate_units candidates.now config.now) ≤ length room.old }
    ensures value { take result room.new ≡ take at room.old ++ candidate_units candidates.now config.now }
    ensures end { result ≡ at + length (candidate_units candidates.now config.now) }
{
    let mut end = at;
    for k in 0..candidates.len() {
        end = write_units(&candidates[k], config.get(k), end, room);
    }
    end
}

/// Writes the units of a year at the start of `room` and answers how many there are: each unit once, by
/// plant and unit number, those of the existing plants first. The candidates' counts come from `config`,
/// whose first counts are theirs. It takes no memory.
pub fn units_of(
    existing: &[Plant],
    candidates: &[Plant],
    config: &Config,
    room: &mut [Unit],
) -> usize
    requires counted { length candidates.now ≤ length config.now }
    requires fits { length (units_of existing.now candidates.now config.now) ≤ length room.old }
    ensures value { take result room.new ≡ units_of existing.now candidates.now config.now }
    ensures count { result ≡ length (units_of existing.now candidates.now config.now) }
{
    let end = write_existing(existing, room);
    write_candidates(candidates, config, end, room)
}

/// No unit stands twice in the list of a year's units, where the plants' numbers rise.
pub fn units_are_distinct()
    ensures { UnitsAreDistinct }
{}
