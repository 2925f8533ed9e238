//! The loops over cells, as functions of slices.
ghost use Rattle.std.specs.Prelude.{◌≡◌, ℕ, ◌+◌, ◌-◌, ◌*◌, ◌/◌, ◌<◌, ◌≤◌, length, take, IsTrue};
ghost use Rattle.wasp_fixed.specs.declared.numbers.TheConstants.{M, ONE};
ghost use Rattle.wasp_fixed.specs.Curves.{area, cell, IsAtMostOne, NeverRises};
ghost use Rattle.convolution.specs.EquivalentLoad.{two_states};
ghost use Rattle.sim_fast.specs.Behind.{shifted_step};

use crate::share::Share;
use wasp_fixed::{M, ONE};

/// Writes ones below `to`.
fn fill_ones(to: usize, out: &mut [u32])
    requires { to ≤ length out.old }
    ensures { (x : ℕ) → x < to → cell out.new x ≡ ONE }
{
    for x in 0..to {
        out[x] = ONE as u32;
    }
}

/// Writes the means of the cells from `from` up to, and without, `to`, each with the cell `capacity` places on.
///
/// Never inlined: where both halves of the share come as 32-bit numbers, each of their products is one instruction
/// of the vector unit, but four where the compiler moves them, widened, out of the loop.
#[inline(never)]
fn mix_cells(share: Share, capacity: usize, from: usize, to: usize, cells: &[u32], out: &mut [u32])
    requires order { from ≤ to }
    requires within { to ≤ length cells.now - capacity }
    requires room { to ≤ length out.old }
    requires falls { NeverRises (cell cells.now) }
    requires most { IsAtMostOne (cell cells.now) }
    ensures value { (x : ℕ) → from ≤ x → x < to → cell out.new x ≡ shifted_step (cell cells.now) capacity share.rate x }
    ensures kept { (x : ℕ) → x < from → cell out.new x ≡ cell out.old x }
{
    for x in from..to {
        out[x] = share.mean(cells[x + capacity], cells[x]);
    }
}

/// Writes the means of the cells from `from` up to, and without, `to`, each with none. Never inlined, for the same
/// reason.
#[inline(never)]
fn scale_cells(share: Share, from: usize, to: usize, cells: &[u32], out: &mut [u32])
    requires order { from ≤ to }
    requires within { to ≤ length cells.now }
    requires room { to ≤ length out.old }
    requires most { IsAtMostOne (cell cells.now) }
    ensures value { (x : ℕ) → from ≤ x → x < to → cell out.new x ≡ two_states share.rate 0 (cell cells.now x) / M }
    ensures kept { (x : ℕ) → x < from → cell out.new x ≡ cell out.old x }
{
    for x in from..to {
        out[x] = share.mean(0, cells[x]);
    }
}

/// Puts a unit behind what a curve stands behind: each cell of `out`, up to the end of `cells`, is the mean of the
/// cell `capacity` places on, where the unit runs, and of the one at the same place, where it is out.
/// The first `ones` cells are one.
pub fn step_cells(share: Share, capacity: usize, ones: usize, cells: &[u32], out: &mut [u32])
    requires ones { ones ≤ length cells.now }
    requires room { length cells.now ≤ length out.old }
    requires falls { NeverRises (cell cells.now) }
    requires most { IsAtMostOne (cell cells.now) }
    requires first { (x : ℕ) → x < ones → cell cells.now x ≡ ONE }
    ensures value { (x : ℕ) → x < length cells.now → cell out.new x ≡ shifted_step (cell cells.now) capacity share.rate x }
{
    let used = cells.len();
    let start = ones.saturating_sub(capacity);
    let middle = used.saturating_sub(capacity);
    fill_ones(start, out);
    mix_cells(share, capacity, start, middle, cells, out);
    scale_cells(share, middle, used, cells, out);
}

/// Where the zeros at the end of the first `used` cells begin.
pub fn end_of(cells: &[u32], used: usize) -> usize
    requires within { used ≤ length cells.now }
    ensures within { result ≤ used }
    ensures zeros { (x : ℕ) → result ≤ x → x < used → cell cells.now x ≡ 0 }
{
    let mut end = used;
    while end > 0 && cells[end - 1] == 0 {
        end -= 1;
    }
    end
}

/// Where a curve ends, and how many cells at its front are one.
#[derive(Clone, Copy, Debug, PartialEq, Eq)]
pub struct Ends {
    pub used: usize,
    pub ones: usize,
}

/// How many cells at the front are one.
pub fn find_ones(cells: &[u32]) -> usize
    ensures within { result ≤ length cells.now }
    ensures value { (x : ℕ) → x < result → cell cells.now x ≡ ONE }
{
    let mut ones = 0;
    while ones < cells.len() && cells[ones] == ONE as u32 {
        ones += 1;
    }
    ones
}

/// Copies a curve, of which the first `ones` cells are one.
pub fn take_over(ones: usize, cells: &[u32], out: &mut [u32]) -> Ends
    requires ones { ones ≤ length cells.now }
    requires room { length cells.now ≤ length out.old }
    requires falls { NeverRises (cell cells.now) }
    requires most { IsAtMostOne (cell cells.now) }
    requires first { (x : ℕ) → x < ones → cell cells.now x ≡ ONE }
    ensures value { (x : ℕ) → cell (take result.used out.new) x ≡ cell cells.now x }
    ensures falls { NeverRises (cell (take result.used out.new)) }
    ensures most { IsAtMostOne (cell (take result.used out.new)) }
    ensures within { result.used ≤ length cells.now }
    ensures ones { result.ones ≤ result.used }
    ensures first { (x : ℕ) → x < result.ones → cell (take result.used out.new) x ≡ ONE }
{
    copy_cells(cells, out);
    let used = end_of(out, cells.len());
    Ends {
        used,
        ones: ones.min(used),
    }
}

/// Copies cells.
fn copy_cells(cells: &[u32], out: &mut [u32])
    requires room { length cells.now ≤ length out.old }
    ensures value { (x : ℕ) → x < length cells.now → cell out.new x ≡ cell cells.now x }
{
    for x in 0..cells.len() {
        out[x] = cells[x];
    }
}

/// Makes a curve the one behind a unit more, with its ends cut.
pub fn put_behind(rate: u64, capacity: usize, ones: usize, cells: &[u32], out: &mut [u32]) -> Ends
    requires rate { rate ≤ M }
    requires ones { ones ≤ length cells.now }
    requires room { length cells.now ≤ length out.old }
    requires falls { NeverRises (cell cells.now) }
    requires most { IsAtMostOne (cell cells.now) }
    requires first { (x : ℕ) → x < ones → cell cells.now x ≡ ONE }
    ensures value { (x : ℕ) → cell (take result.used out.new) x ≡ shifted_step (cell cells.now) capacity rate x }
    ensures falls { NeverRises (cell (take result.used out.new)) }
    ensures most { IsAtMostOne (cell (take result.used out.new)) }
    ensures within { result.used ≤ length cells.now }
    ensures ones { result.ones ≤ result.used }
    ensures first { (x : ℕ) → x < result.ones → cell (take result.used out.new) x ≡ ONE }
{
    if rate < M {
        step_ends(Share::new(rate), capacity, ones, cells, out)
    } else {
        take_over(ones, cells, out)
    }
}

/// The same for an outage rate below one.
fn step_ends(share: Share, capacity: usize, ones: usize, cells: &[u32], out: &mut [u32]) -> Ends
    requires ones { ones ≤ length cells.now }
    requires room { length cells.now ≤ length out.old }
    requires falls { NeverRises (cell cells.now) }
    requires most { IsAtMostOne (cell cells.now) }
    requires first { (x : ℕ) → x < ones → cell cells.now x ≡ ONE }
    ensures value { (x : ℕ) → cell (take result.used out.new) x ≡ shifted_step (cell cells.now) capacity share.rate x }
    ensures falls { NeverRises (cell (take result.used out.new)) }
    ensures most { IsAtMostOne (cell (take result.used out.new)) }
    ensures within { result.used ≤ length cells.now }
    ensures ones { result.ones ≤ result.used }
    ensures first { (x : ℕ) → x < result.ones → cell (take result.used out.new) x ≡ ONE }
{
    step_cells(share, capacity, ones, cells, out);
    let used = end_of(out, cells.len());
    Ends {
        used,
        ones: ones.saturating_sub(capacity).min(used),
    }
}

/// The sum of the cells from `from` up to, and without, `to`.
pub fn sum_cells(cells: &[u32], from: usize, to: usize) -> u64
    requires order { from ≤ to }
    requires within { to ≤ length cells.now }
    requires short { to ≤ 65536 }
    requires cells { (x : ℕ) → x < to → cell cells.now x ≤ ONE }
    ensures value { result ≡ area (cell cells.now) from to }
    ensures small { result ≤ (to - from) * ONE }
{
    let mut total = 0u64;
    for x in from..to {
        total += cells[x] as u64;
    }
    total
}

/// Whether some cells are these and then zeros.
pub fn is_start(start: &[u32], cells: &[u32]) -> bool
    ensures { IsTrue result → (x : ℕ) → cell start.now x ≡ cell cells.now x }
{
    if start.len() > cells.len() {
        return false;
    }
    if end_of(cells, cells.len()) > start.len() {
        return false;
    }
    start == &cells[..start.len()]
}

/// Whether no cell is above one before it.
pub fn never_rises(cells: &[u32]) -> bool
    ensures { IsTrue result → NeverRises (cell cells.now) }
{
    for x in 1..cells.len() {
        if cells[x] > cells[x - 1] {
            return false;
        }
    }
    true
}
