//! Worked rows: small records.
ghost use Rattle.std.specs.Prelude.{◌≡◌, ◌≤◌, length};

use plant_data::{
    Config, Group, Limit, Listed, Load, Plant, Point, Row, Same, Shape, Unit, Water, accepted,
    units_of,
};
use std::alloc::{AllocError, Global};
use std::test::Fail;

/// A plant of one-block units of 100 MW.
fn plant(number: u64, units: u64) -> Plant
    ensures number { result.number ≡ number }
    ensures units { result.units ≡ units }
{
    Plant {
        number,
        units,
        least: 100,
        full: 100,
        heat: 2000,
        inc: 2000,
        domestic: 500,
        foreign: 0,
        variable: 0,
        outage: 1000,
        repair: 0,
    }
}

fn pair(first: u64, second: u64) -> Config
    requires first { first ≤ 128 }
    requires second { second ≤ 128 }
    ensures { length result ≡ 2 }
{
    let mut config = Config::zero(2);
    config.set(0, first);
    config.set(1, second);
    config
}

#[test]
fn configurations_rise_as_lists_do(rt: HostRuntime) {
    let low = pair(0, 128);
    let middle = pair(1, 0);
    let high = pair(1, 2);
    assert!(rt; low < middle && middle < high && low < high);
    assert!(rt; middle.at_most(&high) && middle.at_most(&middle));
    assert!(rt; !low.at_most(&middle) && !high.at_most(&middle));
    assert!(rt; middle == pair(1, 0) && middle != high);
    assert_eq!(rt; (high.get(0), high.get(1), high.width()), (1, 2, 2));
}

#[test]
fn a_years_units_stand_existing_plants_first(rt: HostRuntime) {
    let mut config = Config::zero(1);
    config.set(0, 3);
    let none = Unit {
        plant: 0,
        unit: 0,
        least: 0,
        full: 0,
        heat: 0,
        inc: 0,
        domestic: 0,
        foreign: 0,
        variable: 0,
        outage: 0,
        repair: 0,
    };
    let mut room = [none; 7];
    let count = units_of(
        &[plant(2, 1), plant(9, 2)],
        &[plant(41, 3)],
        &config,
        &mut room,
    );
    assert_eq!(rt; count, 6);
    let wanted = [(2, 1), (9, 1), (9, 2), (41, 1), (41, 2), (41, 3), (0, 0)];
    for k in 0..7 {
        assert_eq!(rt; (room[k].plant, room[k].unit), wanted[k]);
    }
    assert_eq!(rt;
        (room[3].full, room[3].heat, room[3].domestic, room[3].outage),
        (100, 2000, 500, 1000)
    );
}

#[test]
fn a_probability_at_its_limit_is_accepted(rt: HostRuntime) {
    let mut row = Row {
        fuel_domestic: 0,
        fuel_foreign: 0,
        variable: 0,
        unserved: 0,
        worst: 20,
        average: 10,
        short1: 0,
        short2: 0,
        short3: 0,
        short4: 0,
        short5: 0,
    };
    let limit = Limit {
        worst: 20,
        average: 10,
    };
    assert!(rt; accepted(&row, &limit));
    row.average = 11;
    assert!(rt; !accepted(&row, &limit));
    row.average = 10;
    row.worst = 21;
    assert!(rt; !accepted(&row, &limit));
}

fn load(alloc: Global, share: u64) -> Result<Load, AllocError>
    requires { share ≤ 10000 }
{
    let points = vec![in alloc;
        Point {
            load: 0,
            share: 10000
        },
        Point { load: 10000, share },
    ]?;
    Ok(Load {
        peak: 100,
        shape: Shape::new(points),
    })
}

fn group(alloc: Global, energy: u64) -> Result<Group, AllocError> {
    let water = Water {
        base: 10,
        peak: 20,
        energy,
    };
    Ok(Group {
        number: 1,
        existing: 1,
        greatest: 0,
        water: Listed::new(vec![in alloc; water]?),
    })
}

#[test]
fn data_are_the_same_where_all_fields_are(rt: HostRuntime) -> Result<(), Fail> {
    let alloc = rt.alloc();
    assert!(rt; load(alloc, 500)?.same(&load(alloc, 500)?));
    assert!(rt; !load(alloc, 500)?.same(&load(alloc, 501)?));
    assert!(rt; group(alloc, 7)?.same(&group(alloc, 7)?));
    assert!(rt; !group(alloc, 7)?.same(&group(alloc, 8)?));
    assert!(rt;
        Listed::new(vec![in alloc; plant(1, 2)]?).same(&Listed::new(vec![in alloc; plant(1, 2)]?))
    );
    assert_eq!(rt;
        Listed::new(vec![in alloc; 4u64, 5]?).as_slice(),
        [4, 5].as_slice()
    );
    Ok(())
}
