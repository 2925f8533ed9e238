//! What a load was made from.
ghost use Rattle.std.specs.Prelude.{◌≡◌, ◌<◌, ◌≤◌, IsTrue, length, take};
ghost use Rattle.year_system.specs.System.{Fits};
ghost use Rattle.sim_engine.specs.Curves.{waters};
ghost use Rattle.sim_engine.specs.LoadData.{load_data};

use crate::water::water_of;
use plant_data::{Config, Point, Water};
use std::marker::Model;
use year_system::YearSystem;

/// The greatest number of points of a shape.
const MAX_POINTS: usize = 64;

/// The greatest number of hydro groups.
const MAX_GROUPS: usize = 2;

/// Whether some points are the same.
fn are_points(one: &[Point], other: &[Point]) -> bool
    ensures { IsTrue result → one.now ≡ other.now }
{
    if one.len() != other.len() {
        return false;
    }
    for k in 0..one.len() {
        if !is_point(one[k], other[k]) {
            return false;
        }
    }
    true
}

/// Whether two points are the same.
fn is_point(one: Point, other: Point) -> bool
    ensures { IsTrue result → one ≡ other }
{
    one.load == other.load && one.share == other.share
}

/// Writes points into the beginning of a room.
fn copy_points(points: &[Point], room: &mut [Point])
    requires { length points.now ≤ length room.old }
    ensures { take (length points.now) room.new ≡ points.now }
{
    for k in 0..points.len() {
        room[k] = points[k];
    }
}

/// Whether some water is the same.
fn is_water(one: Water, other: Water) -> bool
    ensures { IsTrue result → one ≡ other }
{
    one.base == other.base && one.peak == other.peak && one.energy == other.energy
}

/// Whether some waters are those of the groups in a period under a condition.
fn are_waters(
    held: &[Water],
    system: &YearSystem,
    config: &Config,
    period: usize,
    condition: usize,
) -> bool
    requires fits { Fits system.now config.now }
    requires period { period < length system.now.loads }
    requires condition { condition < length system.now.weights }
    ensures { IsTrue result → held.now ≡ waters system.now config.now period condition }
{
    if held.len() != system.groups().len() {
        return false;
    }
    for k in 0..held.len() {
        if !is_water(held[k], water_of(system, config, k, period, condition)) {
            return false;
        }
    }
    true
}

/// Writes the waters of the groups into the beginning of a room, and answers how many there are.
fn write_waters(
    system: &YearSystem,
    config: &Config,
    period: usize,
    condition: usize,
    room: &mut [Water],
) -> usize
    requires fits { Fits system.now config.now }
    requires period { period < length system.now.loads }
    requires condition { condition < length system.now.weights }
    requires room { length system.now.groups ≤ length room.old }
    ensures within { result ≤ length room.new }
    ensures value { take result room.new ≡ waters system.now config.now period condition }
{
    let count = system.groups().len();
    for k in 0..count {
        room[k] = water_of(system, config, k, period, condition);
    }
    count
}

/// What the load of a period under a condition was made from. No load is made at a step of 0.
#[derive(Drop)]
pub struct LoadKey {
    /// In MW.
    peak: u64,
    /// The MW of a cell.
    step: u64,
    /// Those of the period.
    hours: u64,
    points: [Point; MAX_POINTS],
    point_count: usize,
    waters: [Water; MAX_GROUPS],
    water_count: usize,
}

impl Model for LoadKey {
    ghost use Rattle.std.specs.Prelude.{◌≤◌, take};
    ghost use Rattle.sim_engine.specs.LoadData.{LoadData};

    ghost Value = { LoadData };

    ghost view = { λ k. record { peak = k.peak; points = take k.point_count k.points; step = k.step; hours = k.hours; waters = take k.water_count k.waters } };

    ghost invariant = { λ k. (k.point_count ≤ 64) × (k.water_count ≤ 2) };
}

impl LoadKey {
    /// That of no load.
    pub fn new() -> LoadKey
        ensures { result.step ≡ 0 }
    {
        let point = Point { load: 0, share: 0 };
        let water = Water {
            base: 0,
            peak: 0,
            energy: 0,
        };
        LoadKey {
            peak: 0,
            step: 0,
            hours: 0,
            points: [point; MAX_POINTS],
            point_count: 0,
            waters: [water; MAX_GROUPS],
            water_count: 0,
        }
    }

    /// Becomes that of no load.
    pub fn clear(&mut self)
        ensures { self.new ≡ record self.old { step = 0 } }
    {
        self.step = 0;
    }

    /// Whether the load of a period under a condition is made from the same.
    pub fn is_of(
        &self,
        system: &YearSystem,
        config: &Config,
        period: usize,
        condition: usize,
    ) -> bool
        requires fits { Fits system.now config.now }
        requires period { period < length system.now.loads }
        requires condition { condition < length system.now.weights }
        ensures { IsTrue result → self.now ≡ load_data system.now config.now period condition }
    {
        let load = &system.loads()[period];
        self.step == system.step()
            && self.hours == system.hours()
            && self.peak == load.peak
            && are_points(&self.points[..self.point_count], load.shape.points())
            && are_waters(
                &self.waters[..self.water_count],
                system,
                config,
                period,
                condition,
            )
    }

    /// Becomes that of a period under a condition.
    pub fn set(&mut self, system: &YearSystem, config: &Config, period: usize, condition: usize)
        requires fits { Fits system.now config.now }
        requires period { period < length system.now.loads }
        requires condition { condition < length system.now.weights }
        ensures { self.new ≡ load_data system.now config.now period condition }
    {
        let load = &system.loads()[period];
        let points = load.shape.points();
        copy_points(points, &mut self.points);
        self.water_count = write_waters(system, config, period, condition, &mut self.waters);
        self.point_count = points.len();
        self.peak = load.peak;
        self.step = system.step();
        self.hours = system.hours();
    }
}
