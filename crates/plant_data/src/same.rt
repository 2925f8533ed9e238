//! A test of data for being the same, field by field and item by item.
ghost use Rattle.std.specs.Prelude.{◌≡◌, ◌↔◌, IsTrue};

use crate::listed::Listed;
use crate::plant::{Plant, Rule};
use crate::shape::{Load, Point, Shape};
use crate::water::{Group, Water};

/// A type with a test for being the same: it answers true exactly for equal values, lists and all.
pub trait Same {
    /// Whether `other` is the same value.
    fn same(&self, other: &Self) -> bool
        ensures { IsTrue result ↔ (self.now ≡ other.now) };
}

/// Whether two lists are the same, item by item.
fn same_items<T: Same>(one: &[T], other: &[T]) -> bool
    ensures { IsTrue result ↔ (one.now ≡ other.now) }
{
    if one.len() != other.len() {
        return false;
    }
    for k in 0..one.len() {
        if !one[k].same(&other[k]) {
            return false;
        }
    }
    true
}

impl Same for u64 {
    fn same(&self, other: &Self) -> bool {
        *self == *other
    }
}

impl Same for Rule {
    fn same(&self, other: &Self) -> bool {
        self == other
    }
}

impl Same for Plant {
    fn same(&self, other: &Self) -> bool {
        self == other
    }
}

impl Same for Point {
    fn same(&self, other: &Self) -> bool {
        self == other
    }
}

impl Same for Water {
    fn same(&self, other: &Self) -> bool {
        self == other
    }
}

impl<T: Same> Same for Listed<T> {
    fn same(&self, other: &Self) -> bool {
        same_items(self.as_slice(), other.as_slice())
    }
}

impl Same for Shape {
    fn same(&self, other: &Self) -> bool {
        same_items(self.points(), other.points())
    }
}

impl Same for Load {
    fn same(&self, other: &Self) -> bool {
        self.peak == other.peak && self.shape.same(&other.shape)
    }
}

impl Same for Group {
    fn same(&self, other: &Self) -> bool {
        self.number == other.number
            && self.existing == other.existing
            && self.greatest == other.greatest
            && self.water.same(&other.water)
    }
}
