//! Worked rows: systems, their numbers and codes.
ghost use Rattle.std.specs.Prelude.{◌≡◌, ◌≤◌, [], ◌∷◌, replicate, IfOk};
ghost use Rattle.plant_data.specs.declared.shape.Point.{Point};
ghost use Rattle.plant_data.specs.declared.shape.Load.{Load};

use plant_data::{Config, Group, Listed, Load, Plant, Point, Rule, Shape, Unit, Water};
use std::alloc::{AllocError, Global};
use std::test::Fail;
use year_system::{Book, YearSystem};

/// A one-block candidate of 100 MW.
const GAS: Plant = Plant {
    number: 41,
    units: 3,
    least: 100,
    full: 100,
    heat: 2000,
    inc: 2000,
    domestic: 500,
    foreign: 0,
    variable: 0,
    outage: 1000,
    repair: 0,
};

/// What stands in a room before units are written.
const NO_UNIT: Unit = Unit {
    plant: 0,
    unit: 0,
    least: 0,
    full: 0,
    heat: 0,
    inc: 0,
    domestic: 0,
    foreign: 0,
    variable: 0,
    outage: 0,
    repair: 0,
};

/// A load that stands at its peak all the time.
fn flat(alloc: Global, peak: u64) -> Result<Listed<Load>, AllocError>
    ensures { IfOk result (λ ls. ls ≡ record { peak = peak; shape = record { load = 0; share = 10000 } ∷ record { load = 10000; share = 10000 } ∷ [] } ∷ []) }
{
    let points = vec![in alloc;
        Point {
            load: 0,
            share: 10000
        },
        Point {
            load: 10000,
            share: 10000
        },
    ]?;
    let shape = Shape::new(points);
    let mut loads = Vec::new(alloc);
    loads.push(Load { peak, shape })?;
    Ok(Listed::new(loads))
}

/// A year of one period with a peak of 100 MW and the candidate at a fuel price.
fn year(alloc: Global, price: u64) -> Result<YearSystem, AllocError>
    requires { price ≤ 50000 }
{
    let gas = Plant {
        domestic: price,
        ..GAS
    };
    let loads = flat(alloc, 100)?;
    let weights = vec![in alloc; 10000u64]?;
    let thermal = vec![in alloc; gas]?;
    Ok(YearSystem::new(
        Rule::Merit,
        loads,
        Listed::new(weights),
        Listed::new(Vec::new(alloc)),
        Listed::new(thermal),
        Listed::new(Vec::new(alloc)),
        1,
    ))
}

#[test]
fn years_with_equal_data_have_one_number(rt: HostRuntime) -> Result<(), Fail> {
    let alloc = rt.alloc();
    let mut book = Book::new(alloc);
    assert!(rt; book.is_empty());
    let first = book.intern(year(alloc, 500)?)?;
    assert!(rt; book.len() < 2048);
    let second = book.intern(year(alloc, 500)?)?;
    assert!(rt; book.len() < 2048);
    let third = book.intern(year(alloc, 501)?)?;
    assert_eq!(rt; (first, second, third, book.len()), (0, 0, 1, 2));
    Ok(())
}

/// A year with 12^8 * 11^4 * 16 * 10 configurations, just below 2^50.
fn wide_year(alloc: Global) -> Result<YearSystem, AllocError> {
    let low = Water {
        base: 10,
        peak: 20,
        energy: 0,
    };
    let high = Water {
        base: 300,
        peak: 400,
        energy: 0,
    };
    let first = vec![in alloc;
        low, high, low, high, low, high, low, high, low, high, low, high, low, high, low, high,
        low, high, low, high, low, high, low, high, low, high, low, high, low, high,
    ]?;
    let second = vec![in alloc;
        low, high, low, high, low, high, low, high, low, high, low, high, low, high, low, high,
        low, high,
    ]?;
    let thermal = vec![in alloc;
        Plant {
            number: 41,
            units: 11,
            ..GAS
        },
        Plant {
            number: 42,
            units: 11,
            ..GAS
        },
        Plant {
            number: 43,
            units: 11,
            ..GAS
        },
        Plant {
            number: 44,
            units: 11,
            ..GAS
        },
        Plant {
            number: 45,
            units: 11,
            ..GAS
        },
        Plant {
            number: 46,
            units: 11,
            ..GAS
        },
        Plant {
            number: 47,
            units: 11,
            ..GAS
        },
        Plant {
            number: 48,
            units: 11,
            ..GAS
        },
        Plant {
            number: 49,
            units: 10,
            ..GAS
        },
        Plant {
            number: 50,
            units: 10,
            ..GAS
        },
        Plant {
            number: 51,
            units: 10,
            ..GAS
        },
        Plant {
            number: 52,
            units: 10,
            ..GAS
        },
    ]?;
    let weights = vec![in alloc; 0u64, 10000]?;
    let loads = flat(alloc, 100)?;
    let mut groups = Vec::new(alloc);
    groups.push(Group {
        number: 1,
        existing: 0,
        greatest: 15,
        water: Listed::new(first),
    })?;
    groups.push(Group {
        number: 2,
        existing: 0,
        greatest: 9,
        water: Listed::new(second),
    })?;
    Ok(YearSystem::new(
        Rule::BaseFirst,
        loads,
        Listed::new(weights),
        Listed::new(Vec::new(alloc)),
        Listed::new(thermal),
        Listed::new(groups),
        1,
    ))
}

#[test]
fn a_code_at_the_greatest_product_decodes(rt: HostRuntime) -> Result<(), Fail> {
    let alloc = rt.alloc();
    let mut book = Book::new(alloc);
    let _first = book.intern(year(alloc, 500)?)?;
    assert!(rt; book.len() < 2048);
    let id = book.intern(wide_year(alloc)?)?;
    assert!(rt; id < book.len());
    let system = book.get(id);
    let mut most = Config::zero(system.width());
    for k in 0..system.width() {
        assert!(rt; k < most.width());
        most.set(k, system.greatest(k));
    }
    assert!(rt; system.fits(&most));
    let code = book.code(id, &most);
    // 2^50 + 12^8 * 11^4 * 16 * 10
    assert_eq!(rt; code, 1_125_899_906_842_624 + 1_007_257_921_781_760);
    let (back, config) = book.decode(code);
    assert!(rt; back == id && config == most);
    Ok(())
}

#[test]
fn a_hydro_group_has_its_base_and_peak_under_the_first_condition(
    rt: HostRuntime,
) -> Result<(), Fail> {
    let system = wide_year(rt.alloc())?;
    let mut config = Config::zero(system.width());
    assert!(rt; system.width() == 14 && system.loads().len() == 1);
    config.set(0, 2);
    config.set(12, 3);
    assert!(rt; system.fits(&config));
    // two units of 100 MW, and three projects of 10 + 20 MW
    assert_eq!(rt; system.capacity(&config, 0), 290);
    assert_eq!(rt; (system.cells(), system.unit_limit()), (12_900, 128));
    config.set(0, 12);
    assert!(rt; !system.fits(&config));
    Ok(())
}

#[test]
fn a_configuration_has_units_of_candidates_by_number(rt: HostRuntime) -> Result<(), Fail> {
    let system = wide_year(rt.alloc())?;
    let mut config = Config::zero(system.width());
    assert!(rt; system.width() == 14);
    config.set(0, 1);
    config.set(11, 2);
    assert!(rt; system.fits(&config) && system.unit_limit() <= 128);
    let mut room = [NO_UNIT; 128];
    let count = system.write_units(&config, &mut room);
    assert_eq!(rt; (count, system.hours(), system.step()), (3, 8760, 1));
    for (k, name) in [(0, (41, 1)), (1, (52, 1)), (2, (52, 2))] {
        assert_eq!(rt; (room[k].plant, room[k].unit), name);
    }
    Ok(())
}
