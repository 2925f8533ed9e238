//! Worked rows: the configurations in a tunnel.
ghost use Rattle.std.specs.Prelude.{◌≡◌, ◌≤◌, [], ◌∷◌, IfOk};
ghost use Rattle.plant_data.specs.declared.plant.Rule.TheVariants.{Merit};
ghost use Rattle.year_system.specs.System.{IsSystem, greatest};

use plant_data::{Config, Group, Listed, Load, Margin, Plant, Point, Rule, Shape, Tunnel, Water};
use std::alloc::{AllocError, Global};
use std::test::Fail;
use tunnel_configs::configs;
use year_system::YearSystem;

/// A candidate of 1 MW.
const SMALL: Plant = Plant {
    number: 41,
    units: 32,
    least: 1,
    full: 1,
    heat: 2000,
    inc: 2000,
    domestic: 500,
    foreign: 0,
    variable: 0,
    outage: 1000,
    repair: 0,
};

/// A load that stands at its peak all the time.
fn flat(alloc: Global, peak: u64) -> Result<Load, AllocError>
    ensures { IfOk result (λ l. l ≡ record { peak = peak; shape = record { load = 0; share = 10000 } ∷ record { load = 10000; share = 10000 } ∷ [] }) }
{
    let points = vec![in alloc;
        Point {
            load: 0,
            share: 10_000,
        },
        Point {
            load: 10_000,
            share: 10_000,
        },
    ]?;
    let shape = Shape::new(points);
    Ok(Load { peak, shape })
}

/// The year of these loads and candidates.
fn year_of(
    alloc: Global,
    loads: Vec<Load>,
    thermal: Vec<Plant>,
    groups: Vec<Group>,
) -> Result<YearSystem, AllocError>
    requires { IsSystem (record { rule = Merit; loads = loads.items; weights = 10000 ∷ []; existing = []; thermal = thermal.items; groups = groups.items; step = 1 }) }
    ensures { IfOk result (λ s. s ≡ record { rule = Merit; loads = loads.items; weights = 10000 ∷ []; existing = []; thermal = thermal.items; groups = groups.items; step = 1 }) }
{
    let weights = vec![in alloc; 10_000u64]?;
    Ok(YearSystem::new(
        Rule::Merit,
        Listed::new(loads),
        Listed::new(weights),
        Listed::new(Vec::new(alloc)),
        Listed::new(thermal),
        Listed::new(groups),
        1,
    ))
}

/// Two candidates in a year of one period with a peak of 100 MW.
fn two_candidates(alloc: Global) -> Result<YearSystem, AllocError>
    ensures { IfOk result (λ s. greatest s ≡ 24 ∷ 20 ∷ []) }
{
    let mut loads = Vec::new(alloc);
    loads.push(flat(alloc, 100)?)?;
    let thermal = vec![in alloc;
        Plant { units: 24, ..SMALL },
        Plant {
            number: 42,
            units: 20,
            ..SMALL
        },
    ]?;
    year_of(alloc, loads, thermal, Vec::new(alloc))
}

/// Two periods with peaks of 100 and 90 MW, a thermal candidate, and two hydro projects that give 60 and 40
/// MW, and 0 and 10.
fn two_seasons(alloc: Global) -> Result<YearSystem, AllocError>
    ensures { IfOk result (λ s. greatest s ≡ 120 ∷ 2 ∷ []) }
{
    let mut loads = Vec::new(alloc);
    loads.push(flat(alloc, 100)?)?;
    loads.push(flat(alloc, 90)?)?;
    let thermal = vec![in alloc;
        Plant {
            units: 120,
            ..SMALL
        },
    ]?;
    let water = vec![in alloc;
        water_of(20, 40),
        water_of(20, 20),
        water_of(0, 0),
        water_of(0, 10),
    ]?;
    let mut groups = Vec::new(alloc);
    groups.push(Group {
        number: 1,
        existing: 0,
        greatest: 2,
        water: Listed::new(water),
    })?;
    year_of(alloc, loads, thermal, groups)
}

fn water_of(base: u64, peak: u64) -> Water
    ensures { result ≡ record { base = base; peak = peak; energy = 0 } }
{
    Water {
        base,
        peak,
        energy: 0,
    }
}

/// The counts of two candidates.
fn pair(first: u64, second: u64) -> Config
    requires first { first ≤ 128 }
    requires second { second ≤ 128 }
    ensures { result ≡ first ∷ second ∷ [] }
{
    let mut config = Config::zero(2);
    config.set(0, first);
    config.set(1, second);
    config
}

#[test]
fn margins_that_are_met_exactly_pass(rt: HostRuntime) -> Result<(), Fail> {
    let system = two_candidates(rt.alloc())?;
    let tunnel = Tunnel {
        least: pair(3, 4),
        width: pair(3, 3),
    };
    let margin = Margin {
        low: 1_000,
        high: 1_000,
    };
    let listed = configs(rt.alloc(), &system, &tunnel, &margin)?;
    assert!(rt; listed.as_slice() == [pair(3, 7), pair(4, 6), pair(5, 5), pair(6, 4)].as_slice());
    Ok(())
}

#[test]
fn margins_are_tested_in_the_critical_period(rt: HostRuntime) -> Result<(), Fail> {
    let system = two_seasons(rt.alloc())?;
    let tunnel = Tunnel {
        least: pair(0, 0),
        width: pair(120, 2),
    };
    let margin = Margin {
        low: 11_000,
        high: 11_000,
    };
    let listed = configs(rt.alloc(), &system, &tunnel, &margin)?;
    // with no project in the first period, with one in the second, and with both, a tie, in the first
    assert!(rt; listed.as_slice() == [pair(50, 2), pair(59, 1), pair(110, 0)].as_slice());
    Ok(())
}
