//! What is printed of hourly loads.
ghost use Rattle.std.specs.Prelude.{◌≡◌, ◌++◌, OnErr, OnOk};
ghost use Rattle.hourly_load.specs.Texts.{hourly_text, pair, pairs};

use crate::shape::Hourly;
use plant_data::Point;
use wasp_fixed::OutOfMemory;

/// Appends the pair of a point.
fn push_pair(point: Point, text: &mut Vec<u8>) -> Result<(), OutOfMemory>
    ensures { OnOk result (text.new.items ≡ text.old.items ++ pair point) }
{
    let load = point.load;
    let share = point.share;
    let pair = format!(in *text.allocator(); " {load} {share}")?;
    text.extend_from_slice(pair.as_bytes())?;
    Ok(())
}

/// Appends the pairs of points.
fn push_pairs(points: &[Point], text: &mut Vec<u8>) -> Result<(), OutOfMemory>
    ensures { OnOk result (text.new.items ≡ text.old.items ++ pairs points.now) }
{
    for point in points {
        push_pair(*point, text)?;
    }
    Ok(())
}

/// Appends the lines `PEAK peak`, `SHAPE 1` with the pairs, `MWH sum` and `ERROR error`. After `OutOfMemory` the text
/// is as before.
pub fn write_hourly(hourly: &Hourly, text: &mut Vec<u8>) -> Result<(), OutOfMemory>
    ensures appended { OnOk result (text.new.items ≡ text.old.items ++ hourly_text hourly.now) }
    ensures kept { OnErr result (text.new.items ≡ text.old.items) }
{
    let peak = hourly.peak;
    let head = format!(in *text.allocator(); "PEAK {peak}\nSHAPE 1")?;
    let mut lines = Vec::from_slice(*text.allocator(), head.as_bytes())?;
    push_pairs(hourly.points.points(), &mut lines)?;
    let sum = hourly.sum;
    let error = hourly.error;
    let tail = format!(in *text.allocator(); "\nMWH {sum}\nERROR {error}\n")?;
    lines.extend_from_slice(tail.as_bytes())?;
    text.extend_from_slice(&lines)?;
    Ok(())
}
