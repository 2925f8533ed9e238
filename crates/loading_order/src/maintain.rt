//! The units in their turns, and what maintenance and outages leave of each.
ghost use Rattle.std.specs.Prelude.{◌≡◌, ℕ, ◌+◌, ◌-◌, ◌*◌, ◌<◌, ◌≤◌, ◌^◌, length, All};
ghost use Rattle.std.specs.Prelude.{take, slice_index, slice_index_or, IsPermutation, IsSortedByKey, ◌⊎◌};
ghost use Rattle.std.specs.List.{range_with_len};
ghost use Rattle.std.specs.Ordering.{nat_cmp};
ghost use Rattle.std.specs.Cmp.Lexicographic.{slice_cmp};
ghost use Rattle.plant_data.specs.Units.{no_unit, HasDistinctUnits};
ghost use Rattle.loading_order.specs.Maintenance.{availability, availability_of, no_period, open_again, turn_key, turns, HoursAddUp, IsMaintained};

use crate::periods::{MAX_FULL, Period, place_unit, start_periods};
use plant_data::Unit;
use wasp_fixed::M;

/// The greatest number of periods in a year.
pub const MAX_PERIODS: usize = 12;

/// What is left of a unit that is out for `out` of `hours` hours, in parts of `M`.
fn availability(outage: u64, out: u64, hours: u64) -> u64
    requires outage { outage ≤ M }
    requires out { out ≤ hours }
    requires some { 1 ≤ hours }
    requires short { hours ≤ 8760 }
    ensures { result ≡ availability outage out hours }
{
    (M - outage) * (hours - out) / hours
}

/// What the turns of units are sorted by: falling full capacity, then plant and unit number.
fn turn_key(units: &[Unit], place: usize) -> [u64; 3]
    ensures { result ≡ turn_key (slice_index_or units.now place no_unit) }
{
    match units.get(place) {
        Some(unit) => [MAX_FULL.saturating_sub(unit.full), unit.plant, unit.unit],
        None => [MAX_FULL, 0, 0],
    }
}

/// Puts places of units in the order of their turns.
fn sort_turns(units: &[Unit], places: &mut [usize])
    ensures permutation { IsPermutation places.old places.new }
    ensures sorted { IsSortedByKey (λ i. turn_key (slice_index_or units.now i no_unit)) (slice_cmp nat_cmp) places.new }
{
    places.sort_unstable_by_key(
        |place: &usize| -> [u64; 3]
            ensures { result ≡ turn_key (slice_index_or units.entry.now place.now no_unit) }
        { turn_key(units, *place) },
    );
}

/// Writes the places of the units in the order of their turns.
fn write_turns(units: &[Unit], work: &mut [usize])
    requires distinct { HasDistinctUnits units.now }
    requires room { length units.now ≤ length work.old }
    ensures value { take (length units.now) work.new ≡ turns units.now }
    ensures places { IsPermutation (range_with_len 0 (length units.now)) (take (length units.now) work.new) }
{
    let count = units.len();
    for place in 0..count {
        work[place] = place;
    }
    sort_turns(units, &mut work[..count]);
}

/// Writes the availabilities of the unit at a place, and takes its hours out of the periods.
fn write_row(unit: &Unit, place: usize, hours: u64, periods: &mut [Period], room: &mut [u64])
    requires outage { unit.now.outage ≤ M }
    requires hours { (1 ≤ hours) × (hours ≤ 8760) }
    requires placed { All (λ p. p.hours ≤ hours) periods.old }
    requires room { place * length periods.old + length periods.old ≤ length room.old }
    ensures periods { periods.new ≡ open_again periods.old }
    ensures row { (m : ℕ) → m < length periods.old → slice_index room.new (place * length periods.old + m) ≡ availability unit.now.outage (slice_index_or periods.old m no_period).hours hours }
    ensures rest { (k : ℕ) → (k < place * length periods.old) ⊎ (place * length periods.old + length periods.old ≤ k) → slice_index room.new k ≡ slice_index room.old k }
{
    let n = periods.len();
    for m in 0..n {
        let period = periods[m];
        room[place * n + m] = availability(unit.outage, period.hours, hours);
        periods[m] = Period { hours: 0, ..period };
    }
}

/// Writes the availability of each unit in each period, in parts of `M`: that of the unit at place
/// `u` in period `m` goes to place `u * peaks.len() + m` of `room`.
///
/// `capacities` and `peaks` are the installed capacity and the peak of each of 1 to 12 periods, below
/// 2^40 MW, and `hours` is the length of a period, at most 8,760. The free energy of a period is
/// `(capacity - peak) * hours`, which may be below 0. Units take their turns by falling full
/// capacity, then by plant and unit number. A unit's repair hours go to the period with the most free
/// energy in which it has none yet, the earliest on a tie, as many as the period has; full capacity
/// times these hours comes off its free energy; and so on while hours are left. A unit that is out
/// for `m` of `H` hours has the availability `(M - outage) * (H - m) / H` there, rounded down.
///
/// What stands behind the availabilities in `room` is left as it was. `work` has one place per unit,
/// and holds nothing of use afterwards. The placing by falling capacity is that of the IAEA's
/// Computer Manual Series No. 16.
pub fn maintenance(
    units: &[Unit],
    capacities: &[u64],
    peaks: &[u64],
    hours: u64,
    work: &mut [usize],
    room: &mut [u64],
)
    requires same { length capacities.now ≡ length peaks.now }
    requires periods { (1 ≤ length peaks.now) × (length peaks.now ≤ MAX_PERIODS) }
    requires hours { (1 ≤ hours) × (hours ≤ 8760) }
    requires capacities { All (λ c. c < 2 ^ 40) capacities.now }
    requires peaks { All (λ p. p < 2 ^ 40) peaks.now }
    requires few { length units.now ≤ 128 }
    requires distinct { HasDistinctUnits units.now }
    requires units { All IsMaintained units.now }
    requires work { length units.now ≤ length work.old }
    requires room { length units.now * length peaks.now ≤ length room.old }
    ensures value { (u m : ℕ) → u < length units.now → m < length peaks.now → slice_index room.new (u * length peaks.now + m) ≡ availability_of hours units.now capacities.now peaks.now u m }
    ensures bounded { (u m : ℕ) → u < length units.now → m < length peaks.now → slice_index room.new (u * length peaks.now + m) ≤ M - (slice_index_or units.now u no_unit).outage }
    ensures rest { (k : ℕ) → length units.now * length peaks.now ≤ k → slice_index room.new k ≡ slice_index room.old k }
{
    let count = units.len();
    let n = peaks.len();
    write_turns(units, work);
    let mut all = [Period {
        supply: 0,
        need: 0,
        hours: 0,
    }; MAX_PERIODS];
    let periods = &mut all[..n];
    start_periods(capacities, peaks, hours, periods);
    for turn in 0..count {
        let place = work[turn];
        let unit = &units[place];
        place_unit(unit.full, unit.repair, hours, periods);
        write_row(unit, place, hours, periods, room);
    }
}

/// A unit's repair hours are all placed, where all periods together have as many.
pub fn hours_add_up()
    ensures { HoursAddUp }
{}
