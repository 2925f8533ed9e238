//! Worked rows, on shapes of two points.
ghost use Rattle.std.specs.Prelude.{◌≡◌, ◌≤◌, [], ◌∷◌, IfOk};
ghost use Rattle.plant_data.specs.Shapes.{IsFaultless};

use convolution::Curve;
use load_curves::{curve_at, fill_curve};
use plant_data::{Point, Shape};
use std::alloc::{AllocError, Global};
use std::test::Fail;

/// The shape that falls straight from the whole of the time to `share`.
fn line_to(alloc: Global, share: u64) -> Result<Shape, AllocError>
    requires { share ≤ 10000 }
    ensures { IfOk result (λ shape. IsFaultless shape) }
{
    let mut points = Vec::new(alloc);
    points.push(Point {
        load: 0,
        share: 10_000,
    })?;
    points.push(Point {
        load: 10_000,
        share,
    })?;
    Ok(Shape::new(points))
}

#[test]
fn a_straight_line_is_rounded_up(rt: HostRuntime) -> Result<(), Fail> {
    let shape = line_to(rt.alloc(), 0)?;
    let mut curve = Curve::with_room(rt.alloc(), 3)?;
    fill_curve(3, 1, &shape, &mut curve);
    assert_eq!(rt; curve.len(), 3);
    assert_eq!(rt; curve.cell(0), 1_000_000_000);
    assert_eq!(rt; curve.cell(1), 666_666_667);
    assert_eq!(rt; curve.cell(2), 333_333_334);
    Ok(())
}

#[test]
fn a_step_makes_the_same_cells_of_a_larger_peak(rt: HostRuntime) -> Result<(), Fail> {
    let shape = line_to(rt.alloc(), 0)?;
    let mut curve = Curve::with_room(rt.alloc(), 3)?;
    fill_curve(30, 10, &shape, &mut curve);
    assert_eq!(rt; curve.len(), 3);
    assert_eq!(rt; curve.cell(1), 666_666_667);
    assert_eq!(rt; curve.cell(2), 333_333_334);
    assert_eq!(rt; curve_at(30, 10, &shape, 2), 333_333_334);
    assert_eq!(rt; curve_at(30, 10, &shape, 3), 0);
    Ok(())
}

#[test]
fn the_peak_is_within_the_last_cell(rt: HostRuntime) -> Result<(), Fail> {
    let shape = line_to(rt.alloc(), 10_000)?;
    let mut curve = Curve::with_room(rt.alloc(), 2)?;
    fill_curve(30, 20, &shape, &mut curve);
    assert_eq!(rt; curve.len(), 2);
    assert_eq!(rt; curve.cell(0), 1_000_000_000);
    assert_eq!(rt; curve.cell(1), 1_000_000_000);
    assert_eq!(rt; curve_at(30, 20, &shape, 2), 0);
    Ok(())
}
