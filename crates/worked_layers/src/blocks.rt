//! Worked rows, on the cells of a straight line of three cells.
ghost use Rattle.std.specs.Prelude.{◌≡◌, ◌≤◌, length, IfOk};

use convolution::Curve;
use hydro_shave::{clip_level, shave, shift};
use std::alloc::Global;
use std::test::Fail;
use wasp_fixed::{ONE, OutOfMemory};

fn line(alloc: Global) -> Result<Curve, OutOfMemory> {
    let mut curve = Curve::with_room(alloc, 3)?;
    curve.push(ONE);
    curve.push(666_666_667);
    curve.push(333_333_334);
    Ok(curve)
}

/// Energies of a block of one cell in a year of 8,760 hours: the level and the cells that are left.
#[test]
fn a_peak_block_shaves_from_the_least_level(rt: HostRuntime) -> Result<(), Fail> {
    for (energy, level, cells) in [
        (0, 3, (ONE, 666_666_667, 333_333_334)),
        (8_759, 1, (ONE, 333_333_334, 0)),
        (8_760, 0, (666_666_667, 333_333_334, 0)),
        (1_000_000, 0, (666_666_667, 333_333_334, 0)),
    ] {
        let mut curve = line(rt.alloc())?;
        assert_eq!(rt; clip_level(&curve, 1, energy, 8_760), level, "at {energy}");
        shave(&mut curve, 1, energy, 8_760);
        assert_eq!(rt;
            (curve.cell(0), curve.cell(1), curve.cell(2)),
            cells,
            "at {energy}"
        );
    }
    Ok(())
}

#[test]
fn a_base_block_shifts(rt: HostRuntime) -> Result<(), Fail> {
    let mut curve = line(rt.alloc())?;
    shift(&mut curve, 2);
    assert_eq!(rt; curve.len(), 1);
    assert_eq!(rt; curve.cell(0), 333_333_334);
    shift(&mut curve, 2);
    assert!(rt; curve.is_empty());
    Ok(())
}
