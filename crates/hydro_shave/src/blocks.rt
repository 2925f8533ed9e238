//! The base and peak blocks of hydro plants on a curve.
ghost use Rattle.std.specs.Prelude.{◌≡◌, ℕ, ◌+◌, ◌-◌, ◌*◌, ◌<◌, ◌≤◌, List, length, min};
ghost use Rattle.wasp_fixed.specs.Curves.{cell, NeverRises};
ghost use Rattle.hydro_shave.specs.Hydro.{IsClipLevel, clip_level_of, shaved, shifted};

use convolution::Curve;
use wasp_fixed::ONE;

/// Takes a base block of `base` cells from the curve: cell x is the old cell x + base, and the list gets
/// shorter by `base` cells, or becomes empty. The room stays.
pub fn shift(curve: &mut Curve, base: u64)
    ensures room { curve.new.room ≡ curve.old.room }
    ensures len { length curve.new.cells ≡ length curve.old.cells - base }
    ensures value { (x : ℕ) → cell curve.new.cells x ≡ shifted (cell curve.old.cells) base x }
    ensures never_rises { NeverRises (cell curve.old.cells) → NeverRises (cell curve.new.cells) }
{
    curve.remove(0, base);
}

/// The level, in cells, from which a peak block of `peak_mw` cells and `energy` MWh shaves the curve: the
/// least L with `(F(L) + .. + F(L + peak_mw - 1)) * hours <= energy * ONE`.
///
/// A peak block is at most 600,000 cells, an energy at most 6,000,000,000 MWh, and `hours` are those of
/// the period times the MW of a cell, at most 175,200.
pub fn clip_level(curve: &Curve, peak_mw: u64, energy: u64, hours: u64) -> u64
    requires peak { peak_mw ≤ 600000 }
    requires energy { energy ≤ 6000000000 }
    requires hours { hours ≤ 175200 }
    ensures level { IsClipLevel (cell curve.now.cells) peak_mw energy hours result }
    ensures value { (top : ℕ) → length curve.now.cells ≤ top → result ≡ clip_level_of (cell curve.now.cells) peak_mw energy hours top }
    ensures within { result ≤ length curve.now.cells }
{
    let mut sum = curve.area(0, peak_mw.min(curve.len() as u64));
    let mut level = 0;
    while energy * ONE < sum * hours {
        sum = sum - curve.cell(level) + curve.cell(level + peak_mw);
        level += 1;
    }
    level
}

/// Takes a peak block of `peak_mw` cells and `energy` MWh from the curve: it keeps the cells below the
/// level of `clip_level`, and from there on cell x is the old cell x + peak_mw. The list gets shorter by
/// `peak_mw` cells, or by those from the level on where they are fewer. The room stays.
///
/// A peak block is at most 600,000 cells, an energy at most 6,000,000,000 MWh, and `hours` are those of
/// the period times the MW of a cell, at most 175,200.
pub fn shave(curve: &mut Curve, peak_mw: u64, energy: u64, hours: u64)
    requires peak { peak_mw ≤ 600000 }
    requires energy { energy ≤ 6000000000 }
    requires hours { hours ≤ 175200 }
    ensures room { curve.new.room ≡ curve.old.room }
    ensures len { (level : ℕ) → IsClipLevel (cell curve.old.cells) peak_mw energy hours level → length curve.new.cells ≡ length curve.old.cells - min peak_mw (length curve.old.cells - level) }
    ensures no_longer { length curve.new.cells ≤ length curve.old.cells }
    ensures value { (level : ℕ) → IsClipLevel (cell curve.old.cells) peak_mw energy hours level → (x : ℕ) → cell curve.new.cells x ≡ shaved (cell curve.old.cells) peak_mw level x }
    ensures never_rises { NeverRises (cell curve.old.cells) → NeverRises (cell curve.new.cells) }
{
    let level = clip_level(curve, peak_mw, energy, hours);
    curve.remove(level, peak_mw);
}
