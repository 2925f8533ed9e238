//! The curve through the points of a shape, at one load.
ghost use Rattle.std.specs.Prelude.{◌≡◌, ℕ, ◌+◌, ◌-◌, ◌*◌, ◌/◌, ◌<◌, ◌≤◌, List, length};
ghost use Rattle.plant_data.specs.Shapes.{IsFaultless};
ghost use Rattle.load_curves.specs.LoadCurve.{between, load_curve};

use plant_data::{Point, Shape};
use wasp_fixed::{M, ONE};

/// A ten-thousandth, the unit of a point's share, in parts of `ONE`.
const SHARE: u64 = ONE / M;

/// The share of the time between two points, in parts of `ONE`, at a load in ten-thousandths of a MW.
#[inline(always)]
pub fn share_between(low: Point, high: Point, peak: u64, load: u64) -> u64
    requires peak { peak ≤ 400000 }
    requires rises { high.load ≤ 10000 }
    requires falls { high.share ≤ low.share }
    requires share { low.share ≤ 10000 }
    requires from { low.load * peak ≤ load }
    requires to { load < high.load * peak }
    ensures value { result ≡ between low high peak load }
    ensures small { result ≤ ONE }
{
    let fall = low.share * SHARE - high.share * SHARE;
    low.share * SHARE - fall * (load - low.load * peak) / ((high.load - low.load) * peak)
}

/// The load duration curve at cell `x` of `step` MW, in parts of `ONE`: as `fill_curve` makes it, and 0
/// from the peak on.
///
/// The peak is in MW, at most 400,000, and the step is from 1 to 20 MW.
pub fn curve_at(peak: u64, step: u64, shape: &Shape, x: u64) -> u64
    requires peak { peak ≤ 400000 }
    requires step { 1 ≤ step }
    requires step_most { step ≤ 20 }
    requires shape { IsFaultless shape.now }
    ensures value { result ≡ load_curve peak step shape.now x }
    ensures small { result ≤ ONE }
{
    if x >= peak.div_ceil(step) {
        return 0;
    }
    let load = x * step * M;
    let points = shape.points();
    for i in 1..points.len() {
        if load < points[i].load * peak {
            return share_between(points[i - 1], points[i], peak, load);
        }
    }
    0
}
