//! The loops over cells, as functions of slices.
ghost use Rattle.std.specs.Prelude.{◌≡◌, ℕ, ◌+◌, ◌-◌, ◌*◌, ◌/◌, ◌<◌, ◌≤◌, ◌++◌, length, take, drop};
ghost use Rattle.wasp_fixed.specs.Curves.{area, cell, IsAtMostOne};
ghost use Rattle.convolution.specs.EquivalentLoad.{eq_step, two_states};

use crate::kernel::Weights;
use wasp_fixed::{M, ONE};

/// Mixes each cell from `capacity` up to `end` with the cell `capacity` places before it.
/// From the last cell down, so that each cell is read before it is written over.
fn mix_above(weights: Weights, capacity: usize, end: usize, cells: &mut [u32])
    requires order { capacity ≤ end }
    requires within { end ≤ length cells.old }
    requires cells { IsAtMostOne (cell cells.old) }
    ensures value { (x : ℕ) → capacity ≤ x → x < end → cell cells.new x ≡ two_states weights.outage (cell cells.old x) (cell cells.old (x - capacity)) / M }
    ensures kept { (x : ℕ) → x < capacity → cell cells.new x ≡ cell cells.old x }
    ensures cells { IsAtMostOne (cell cells.new) }
{
    let mut x = end;
    while x > capacity {
        x -= 1;
        cells[x] = weights.mean(cells[x], cells[x - capacity]);
    }
}

/// Mixes each cell below `capacity` with one, the value below 0.
fn mix_below(weights: Weights, capacity: usize, cells: &mut [u32])
    requires within { capacity ≤ length cells.old }
    requires cells { IsAtMostOne (cell cells.old) }
    ensures value { (x : ℕ) → x < capacity → cell cells.new x ≡ two_states weights.outage (cell cells.old x) ONE / M }
    ensures kept { (x : ℕ) → capacity ≤ x → cell cells.new x ≡ cell cells.old x }
    ensures cells { IsAtMostOne (cell cells.new) }
{
    for x in 0..capacity {
        cells[x] = weights.mean(cells[x], ONE as u32);
    }
}

/// Convolves one unit onto the first `end` cells, in place.
pub fn convolve_cells(outage: u32, capacity: usize, end: usize, cells: &mut [u32])
    requires rate { outage ≤ M }
    requires order { capacity ≤ end }
    requires within { end ≤ length cells.old }
    requires cells { IsAtMostOne (cell cells.old) }
    ensures value { (x : ℕ) → x < end → cell cells.new x ≡ eq_step (cell cells.old) capacity outage x }
    ensures cells { IsAtMostOne (cell cells.new) }
{
    let weights = Weights::new(outage);
    mix_above(weights, capacity, end, cells);
    mix_below(weights, capacity, cells);
}

/// Sets the cells from `from` up to, and without, `to` to 0: the curve that ends at `from`, written out as far as `to`.
pub fn zero_cells(cells: &mut [u32], from: usize, to: usize)
    requires order { from ≤ to }
    requires within { to ≤ length cells.old }
    requires cells { IsAtMostOne (cell cells.old) }
    ensures value { (x : ℕ) → x < to → cell cells.new x ≡ cell (take from cells.old) x }
    ensures cells { IsAtMostOne (cell cells.new) }
{
    for x in from..to {
        cells[x] = 0;
    }
}

/// Copies the first `count` cells.
pub fn copy_cells(count: usize, source: &[u32], target: &mut [u32])
    requires source_len { count ≤ length source.now }
    requires target_len { count ≤ length target.old }
    requires source_cells { IsAtMostOne (cell source.now) }
    requires target_cells { IsAtMostOne (cell target.old) }
    ensures value { take count target.new ≡ take count source.now }
    ensures cells { IsAtMostOne (cell target.new) }
{
    target[..count].copy_from_slice(&source[..count]);
}

/// Moves the cells behind a gap down over it.
pub fn close_gap(cells: &mut [u32], from: usize, gap: usize, used: usize)
    requires order { from + gap ≤ used }
    requires within { used ≤ length cells.old }
    requires cells { IsAtMostOne (cell cells.old) }
    ensures value { take (used - gap) cells.new ≡ take from cells.old ++ drop (from + gap) (take used cells.old) }
    ensures cells { IsAtMostOne (cell cells.new) }
{
    cells.copy_within(from + gap..used, from);
}

/// The sum of the cells from `from` up to, and without, `to`.
pub fn sum_cells(cells: &[u32], from: usize, to: usize) -> u64
    requires order { from ≤ to }
    requires within { to ≤ length cells.now }
    requires short { to ≤ 65536 }
    requires cells { IsAtMostOne (cell cells.now) }
    ensures value { result ≡ area (cell cells.now) from to }
    ensures small { result ≤ (to - from) * ONE }
{
    let mut total = 0u64;
    for x in from..to {
        total += u64::from(cells[x]);
    }
    total
}
