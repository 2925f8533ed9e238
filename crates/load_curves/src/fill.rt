//! The cells of a load duration curve, made along the points of its shape.
ghost use Rattle.std.specs.Prelude.{◌≡◌, ℕ, ◌+◌, ◌-◌, ◌*◌, ◌/◌, ◌<◌, ◌≤◌, List, length};
ghost use Rattle.wasp_fixed.specs.Curves.{cell, IsAtMostOne, NeverRises};
ghost use Rattle.plant_data.specs.Shapes.{IsFaultless};
ghost use Rattle.load_curves.specs.LoadCurve.{between, load_curve};

use crate::points::share_between;
use convolution::Curve;
use plant_data::{Point, Shape};
use wasp_fixed::M;

/// Adds the cells from the point `low` up to, and without, the point `high`.
fn push_between(low: Point, high: Point, peak: u64, step: u64, curve: &mut Curve)
    requires peak { peak ≤ 400000 }
    requires step { 1 ≤ step }
    requires step_most { step ≤ 20 }
    requires rises { low.load ≤ high.load }
    requires most { high.load ≤ 10000 }
    requires falls { high.share ≤ low.share }
    requires share { low.share ≤ 10000 }
    requires begins { length curve.old.cells ≡ (low.load * peak + step * 10000 - 1) / (step * 10000) }
    requires room { (high.load * peak + step * 10000 - 1) / (step * 10000) ≤ curve.old.room }
    ensures room { curve.new.room ≡ curve.old.room }
    ensures len { length curve.new.cells ≡ (high.load * peak + step * 10000 - 1) / (step * 10000) }
    ensures kept { (x : ℕ) → x < length curve.old.cells → cell curve.new.cells x ≡ cell curve.old.cells x }
    ensures value { (x : ℕ) → length curve.old.cells ≤ x → x < length curve.new.cells → cell curve.new.cells x ≡ between low high peak (x * step * 10000) }
{
    let end = (high.load * peak).div_ceil(step * M);
    for x in curve.len() as u64..end {
        curve.push(share_between(low, high, peak, x * step * M));
    }
}

/// Makes the curve the load duration curve of a period, in cells of `step` MW, in parts of `ONE`: cell x
/// is `P - floor((P - Q) * (y - l * peak) / ((m - l) * peak))`, where y is `x * step * 10000` and the
/// neighbours that y lies between have the loads l and m and the shares P and Q. The list ends at the
/// peak. The room stays.
///
/// The peak is in MW, at most 400,000, the step is from 1 to 20 MW, and the room holds the cells.
pub fn fill_curve(peak: u64, step: u64, shape: &Shape, curve: &mut Curve)
    requires peak { peak ≤ 400000 }
    requires step { 1 ≤ step }
    requires step_most { step ≤ 20 }
    requires shape { IsFaultless shape.now }
    requires room { (peak + step - 1) / step ≤ curve.old.room }
    ensures room { curve.new.room ≡ curve.old.room }
    ensures len { length curve.new.cells ≡ (peak + step - 1) / step }
    ensures value { (x : ℕ) → cell curve.new.cells x ≡ load_curve peak step shape.now x }
    ensures never_rises { NeverRises (cell curve.new.cells) }
    ensures at_most_one { IsAtMostOne (cell curve.new.cells) }
{
    curve.clear();
    let points = shape.points();
    for i in 1..points.len() {
        push_between(points[i - 1], points[i], peak, step, curve);
    }
}
