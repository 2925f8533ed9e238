//! Worked rows: blocks in order and maintenance.
ghost use Rattle.std.specs.Prelude.{◌≡◌, ◌≢◌, ◌≤◌};
ghost use Rattle.loading_order.specs.LoadingOrder.{IsPriced};
ghost use Rattle.loading_order.specs.Maintenance.{IsMaintained};

use loading_order::{Block, Kind, maintenance, order};
use plant_data::{Rule, Unit};

/// A unit of 50 MW base and 50 MW peak, at 100 cents per million kcal.
fn priced(plant: u64, unit: u64, heat: u64, inc: u64) -> Unit
    requires heat { heat ≤ 50000 }
    requires inc { inc ≤ 50000 }
    ensures ranges { IsPriced result }
    ensures unit { result.unit ≡ unit }
{
    Unit {
        plant,
        unit,
        least: 50,
        full: 100,
        heat,
        inc,
        domestic: 100,
        foreign: 0,
        variable: 0,
        outage: 1000,
        repair: 0,
    }
}

/// A unit of 100 MW that is out for these hours a year.
fn maintained(plant: u64, unit: u64, repair: u64) -> Unit
    requires repair { repair ≤ 8760 }
    ensures ranges { IsMaintained result }
    ensures unit { result.unit ≡ unit }
{
    Unit {
        plant,
        unit,
        least: 100,
        full: 100,
        heat: 2000,
        inc: 2000,
        domestic: 100,
        foreign: 0,
        variable: 0,
        outage: 1000,
        repair,
    }
}

/// The place of the unit, the kind and the cost of each block of three units with two blocks each.
fn loaded(first: Unit, second: Unit, third: Unit, rule: Rule) -> [(usize, Kind, u64); 6]
    requires first { IsPriced first }
    requires second { IsPriced second }
    requires third { IsPriced third }
    requires first_second { first.unit ≢ second.unit }
    requires first_third { first.unit ≢ third.unit }
    requires second_third { second.unit ≢ third.unit }
{
    let mut room = [Block {
        unit: 0,
        kind: Kind::Base,
        capacity: 0,
        cost: 0,
    }; 6];
    let _end = order(&[first, second, third], rule, &mut room);
    let mut blocks = [(0, Kind::Base, 0); 6];
    for i in 0..6usize {
        blocks[i] = (room[i].unit, room[i].kind, room[i].cost);
    }
    blocks
}

/// The availabilities of one unit of 100 MW in four periods.
fn one_unit(repair: u64, peaks: [u64; 4]) -> [u64; 4]
    requires repair { repair ≤ 8760 }
{
    let mut work = [0usize; 1];
    let mut room = [0u64; 4];
    let small = [
        peaks[0].min(1000),
        peaks[1].min(1000),
        peaks[2].min(1000),
        peaks[3].min(1000),
    ];
    maintenance(
        &[maintained(1, 1, repair)],
        &[100; 4],
        &small,
        2190,
        &mut work,
        &mut room,
    );
    room
}

/// The availabilities of two units of 100 MW in two periods with the same peak.
fn two_units(first: Unit, second: Unit) -> [u64; 4]
    requires first { IsMaintained first }
    requires second { IsMaintained second }
    requires distinct { first.unit ≢ second.unit }
{
    let mut work = [0usize; 2];
    let mut room = [0u64; 4];
    maintenance(
        &[first, second],
        &[200; 2],
        &[150; 2],
        4380,
        &mut work,
        &mut room,
    );
    room
}

#[test]
fn blocks_of_equal_cost_stand_by_plant_and_unit_number_base_before_peak(rt: HostRuntime) {
    let blocks = loaded(
        priced(2, 5, 2000, 2000),
        priced(2, 4, 2000, 2000),
        priced(1, 6, 2000, 2000),
        Rule::Merit,
    );
    assert_eq!(rt;
        blocks,
        [
            (2, Kind::Base, 200_000),
            (2, Kind::Peak, 200_000),
            (1, Kind::Base, 200_000),
            (1, Kind::Peak, 200_000),
            (0, Kind::Base, 200_000),
            (0, Kind::Peak, 200_000)
        ]
    );
}

#[test]
fn under_base_first_every_base_block_stands_before_every_peak_block(rt: HostRuntime) {
    let units = [
        priced(1, 1, 3000, 3100),
        priced(2, 2, 1000, 1100),
        priced(3, 3, 2000, 2100),
    ];
    assert_eq!(rt;
        loaded(units[0], units[1], units[2], Rule::BaseFirst),
        [
            (1, Kind::Base, 100_000),
            (2, Kind::Base, 200_000),
            (0, Kind::Base, 300_000),
            (1, Kind::Peak, 110_000),
            (2, Kind::Peak, 210_000),
            (0, Kind::Peak, 310_000)
        ]
    );
}

#[test]
fn a_peak_block_with_a_lower_incremental_cost_costs_what_the_base_block_costs(rt: HostRuntime) {
    let blocks = loaded(
        priced(1, 1, 3000, 2000),
        priced(2, 2, 1000, 9000),
        priced(3, 3, 2000, 2500),
        Rule::Merit,
    );
    assert_eq!(rt;
        blocks,
        [
            (1, Kind::Base, 100_000),
            (2, Kind::Base, 200_000),
            (2, Kind::Peak, 250_000),
            (0, Kind::Base, 300_000),
            (0, Kind::Peak, 300_000),
            (1, Kind::Peak, 900_000)
        ]
    );
}

#[test]
fn repair_hours_run_over_into_the_next_period(rt: HostRuntime) {
    let mut work = [0usize; 1];
    let mut room = [0u64; 12];
    maintenance(
        &[maintained(1, 1, 1008)],
        &[100; 12],
        &[50; 12],
        730,
        &mut work,
        &mut room,
    );
    assert_eq!(rt;
        room,
        [
            0, 5572, 9000, 9000, 9000, 9000, 9000, 9000, 9000, 9000, 9000, 9000
        ]
    );
}

#[test]
fn a_unit_is_out_where_most_energy_is_free_and_first_of_equals(rt: HostRuntime) {
    for (repair, peaks, want) in [
        (2190, [90, 80, 70, 70], [9000, 9000, 0, 9000]),
        (2190, [60, 60, 60, 60], [0, 9000, 9000, 9000]),
        (2190, [160, 150, 140, 155], [9000, 9000, 0, 9000]),
        (2190 + 1095, [90, 80, 70, 70], [9000, 9000, 0, 4500]),
        (8760, [90, 80, 70, 60], [0, 0, 0, 0]),
        (0, [90, 80, 70, 60], [9000, 9000, 9000, 9000]),
    ] {
        assert_eq!(rt; one_unit(repair, peaks), want, "{repair} hours");
    }
}

#[test]
fn units_of_equal_capacity_take_their_turns_by_plant_and_unit_number(rt: HostRuntime) {
    let by_plant = two_units(maintained(2, 1, 4380), maintained(1, 2, 4380));
    assert_eq!(rt; by_plant, [9000, 0, 0, 9000]);
    let by_unit = two_units(maintained(1, 2, 4380), maintained(1, 1, 4380));
    assert_eq!(rt; by_unit, [9000, 0, 0, 9000]);
}
