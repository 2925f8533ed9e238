//! The load of a period, and the shape of its curve.
ghost use Rattle.std.specs.Prelude.{◌≡◌, ◌≤◌, List, length, All};
ghost use Rattle.plant_data.specs.Shapes.{IsInRange};

use std::marker::Model;

/// A point of a load duration curve.
#[derive(Clone, Copy, Debug, PartialEq, Eq)]
pub struct Point {
    /// The load, 0 to 10,000 ten-thousandths of the peak.
    pub load: u64,
    /// The share of the time with a greater load, 0 to 10,000 ten-thousandths.
    pub share: u64,
}

/// The 2 to 64 points of a load duration curve, which contracts see as their list.
///
/// A shape need not be faultless: that is a fact of its own, which the deck's check finds.
#[derive(Debug, Drop)]
pub struct Shape {
    points: Vec<Point>,
}

impl Model for Shape {
    ghost use Rattle.std.specs.Prelude.{List, length, ◌≤◌, All};
    ghost use Rattle.plant_data.specs.Shapes.{IsInRange};
    ghost use Rattle.plant_data.specs.declared.shape.Point.{Point};

    ghost Value = { List Point };

    ghost view = { λ s. s.points.items };

    ghost invariant = { λ s. (2 ≤ length s.points.items) × (length s.points.items ≤ 64) × All IsInRange s.points.items };
}

impl Shape {
    /// The shape with these points.
    pub fn new(points: Vec<Point>) -> Shape
        requires low { 2 ≤ length points.items }
        requires high { length points.items ≤ 64 }
        requires range { All IsInRange points.items }
        ensures { result ≡ points.items }
    {
        Shape { points }
    }

    /// The points.
    pub fn points(&self) -> &[Point]
        ensures value { result.now ≡ self.now }
        ensures low { 2 ≤ length self.now }
        ensures high { length self.now ≤ 64 }
        ensures range { All IsInRange self.now }
    {
        self.points.as_slice()
    }
}

/// The load of a period.
#[derive(Debug, Drop)]
pub struct Load {
    /// The peak, 1 to 400,000 MW.
    pub peak: u64,
    /// The shape of the period's load duration curve.
    pub shape: Shape,
}
