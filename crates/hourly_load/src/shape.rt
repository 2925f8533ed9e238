//! The shape of hourly loads.
ghost use Rattle.std.specs.Prelude.{◌≡◌, ◌+◌, ◌-◌, ◌*◌, ◌/◌, ◌<◌, ◌≤◌, ℕ, All, IfOk, length, slice_index, sum};
ghost use Rattle.wasp_fixed.specs.Curves.{cell, IsAtMostOne};
ghost use Rattle.plant_data.specs.Shapes.{IsFaultless};
ghost use Rattle.load_curves.specs.LoadCurve.{load_curve};
ghost use Rattle.hourly_load.specs.Hours as spec;
ghost use Rattle.hourly_load.specs.Hours.{above, gap, IsGreatest, IsHourly, points_of};

use crate::tally::loads_above;
use convolution::Curve;
use load_curves::fill_curve;
use plant_data::{Point, Shape};
use std::alloc::Global;
use wasp_fixed::{M, ONE, OutOfMemory};

/// The most loads: the hours of a leap year.
pub const MAX_LOADS: usize = 8784;

/// A year's hourly loads as the shape of a load duration curve.
#[derive(Debug, Drop)]
pub struct Hourly {
    /// The greatest load, 1 to 65,535 MW.
    pub peak: u64,
    /// The points, whose form is that of a SHAPE statement.
    pub points: Shape,
    /// The sum of the loads in MWh.
    pub sum: u64,
    /// How far the curve through the points is at most from the share of the hours with a greater load, over the
    /// megawatts below the peak, in parts of `ONE`.
    pub error: u64,
}

/// The greatest load.
fn greatest(loads: &[u64]) -> u64
    requires { 1 ≤ length loads.now }
    ensures { IsGreatest (slice_index loads.now) (length loads.now) result }
{
    let mut peak = loads[0];
    for load in loads {
        if *load > peak {
            peak = *load;
        }
    }
    peak
}

/// The sum of the loads.
fn total(loads: &[u64]) -> u64
    requires few { length loads.now ≤ 8784 }
    requires small { All (λ load. load ≤ 65535) loads.now }
    ensures { result ≡ sum loads.now }
{
    let mut sum = 0;
    for load in loads {
        sum += *load;
    }
    sum
}

/// Point i of so many, counted from 0, given how many of so many loads are above each megawatt below the peak.
fn point_at(loads: u64, above: &[u64], points: u64, i: u64) -> Point
    requires some { 1 ≤ loads }
    requires few { loads ≤ 8784 }
    requires peak { length above.now ≤ 65535 }
    requires least { 2 ≤ points }
    requires most { points ≤ 64 }
    requires within { i < points }
    requires counts { (x : ℕ) → slice_index above.now x ≤ loads }
    ensures { result ≡ record { load = spec.part points i; share = 10000 * slice_index above.now (spec.part points i * length above.now / 10000) / loads } }
{
    let load = M * i / (points - 1);
    let megawatts = load * above.len() as u64 / M;
    let greater = match above.get(megawatts as usize) {
        Some(count) => *count,
        None => 0,
    };
    Point {
        load,
        share: M * greater / loads,
    }
}

/// The points of the shape.
fn shape_points(
    alloc: Global,
    loads: &[u64],
    above: &[u64],
    points: u64,
) -> Result<Shape, OutOfMemory>
    requires some { 1 ≤ length loads.now }
    requires few { length loads.now ≤ 8784 }
    requires peak { length above.now ≤ 65535 }
    requires least { 2 ≤ points }
    requires most { points ≤ 64 }
    requires counts { (x : ℕ) → slice_index above.now x ≡ spec.above loads.now x }
    ensures { IfOk result (λ shape. shape ≡ points_of loads.now (length above.now) points) }
{
    let mut list = Vec::new(alloc);
    for i in 0..points {
        list.push(point_at(loads.len() as u64, above, points, i))?;
    }
    Ok(Shape::new(list))
}

/// How far the curve is at a megawatt from the share of so many loads of which `greater` are above it.
fn gap_between(loads: u64, share: u64, greater: u64) -> u64
    requires some { 1 ≤ loads }
    requires few { loads ≤ 8784 }
    requires share { share ≤ 1000000000 }
    requires greater { greater ≤ loads }
    ensures { result ≡ spec.distance (share * loads) (1000000000 * greater) / loads }
{
    (share * loads).abs_diff(ONE * greater) / loads
}

/// How far the curve is at most from the loads, over the megawatts below the peak.
fn greatest_gap(loads: u64, above: &[u64], curve: &Curve) -> u64
    requires some { 1 ≤ loads }
    requires few { loads ≤ 8784 }
    requires peak { 1 ≤ length above.now }
    requires most { length above.now ≤ 65535 }
    requires counts { (x : ℕ) → slice_index above.now x ≤ loads }
    ensures { IsGreatest (λ x. spec.distance (cell curve.now.cells x * loads) (1000000000 * slice_index above.now x) / loads) (length above.now) result }
{
    let mut error = gap_between(loads, curve.cell(0), above[0]);
    for x in 1..above.len() {
        let gap = gap_between(loads, curve.cell(x as u64), above[x]);
        if gap > error {
            error = gap;
        }
    }
    error
}

/// Makes a shape of so many points of hourly loads in MW.
///
/// Point i of p, counted from 0, has the load `l = floor(10000 * i / (p - 1))` and the share
/// `floor(10000 * above(floor(l * peak / 10000)) / n)`, where `above(x)` is how many of the n loads are greater than x MW. The
/// error is the greatest, over the megawatts x below the peak, of `floor(|curve(x) * n - ONE * above(x)| / n)`, where
/// `curve` is the load duration curve of the points in steps of 1 MW. The sum is that of `above(x)` over the same x,
/// which is the sum of the loads.
///
/// There are 1 to 8,784 loads of at most 65,535 MW, one of them above 0, and 2 to 64 points. The time is linear in the
/// loads and in the peak.
pub fn shape_of(alloc: Global, loads: &[u64], points: u64) -> Result<Hourly, OutOfMemory>
    requires few { length loads.now ≤ 8784 }
    requires small { All (λ load. load ≤ 65535) loads.now }
    requires some { 1 ≤ above loads.now 0 }
    requires least { 2 ≤ points }
    requires most { points ≤ 64 }
    ensures value { IfOk result (λ hourly. IsHourly loads.now points hourly) }
    // They may stand in a deck.
    ensures form { IfOk result (λ hourly. IsFaultless hourly.points) }
    ensures energy { IfOk result (λ hourly. hourly.sum ≡ sum loads.now) }
{
    let peak = greatest(loads);
    let above = loads_above(alloc, loads, peak)?;
    let shape = shape_points(alloc, loads, &above, points)?;
    let mut curve = Curve::with_room(alloc, peak as usize)?;
    fill_curve(peak, 1, &shape, &mut curve);
    Ok(Hourly {
        peak,
        error: greatest_gap(loads.len() as u64, &above, &curve),
        points: shape,
        sum: total(loads),
    })
}
