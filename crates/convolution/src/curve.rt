//! A curve with room for a fixed number of cells.
ghost use Rattle.std.specs.Prelude.{◌≡◌, ℕ, ◌+◌, ◌-◌, ◌*◌, ◌<◌, ◌≤◌, ◌↔◌, [], ◌∷◌, ◌++◌, List, length, take, drop, IfOk, IsTrue};
ghost use Rattle.wasp_fixed.specs.Curves.{area, cell, IsAtMostOne};
ghost use Rattle.convolution.specs.EquivalentLoad.{eq_step, Part};
ghost use Rattle.convolution.specs.ExactLoad.{IsWithin};

use crate::slices::{close_gap, convolve_cells, copy_cells, sum_cells, zero_cells};
use std::alloc::Global;
use std::marker::Model;
use wasp_fixed::{M, ONE, OutOfMemory};

/// A load duration curve, or an equivalent load, in cells.
///
/// Cell x is the share of time, in parts of `ONE`, in which the load is above cell x of the grid. Cells
/// past the list are 0, and below 0 the curve is `ONE`. The room is set once, so no later call takes
/// memory.
#[derive(Drop)]
pub struct Curve {
    /// As long as the room; the first `used` cells are the curve's.
    held: Vec<u32>,
    used: usize,
}

impl Model for Curve {
    ghost use Rattle.std.specs.Prelude.{◌≤◌, take, vec_len};
    ghost use Rattle.wasp_fixed.specs.Curves.{cell, IsAtMostOne};
    ghost use Rattle.convolution.specs.CellList.{CellList};

    ghost Value = { CellList };

    ghost view = { λ c. record { cells = take c.used c.held.items; room = vec_len c.held } };

    ghost invariant = { λ c. (c.used ≤ vec_len c.held) × (vec_len c.held ≤ 65536) × IsAtMostOne (cell c.held.items) };
}

impl Curve {
    /// A curve of no cells with no room, which takes no memory.
    pub fn new(alloc: Global) -> Curve
        ensures { result ≡ record { cells = []; room = 0 } }
    {
        Curve {
            held: Vec::new(alloc),
            used: 0,
        }
    }

    /// A curve of no cells with room for `cells` cells, at most 65,536. The only call that takes memory.
    pub fn with_room(alloc: Global, cells: usize) -> Result<Curve, OutOfMemory>
        requires { cells ≤ 65536 }
        ensures { IfOk result (λ curve. curve ≡ record { cells = []; room = cells }) }
    {
        let held = vec![in alloc; 0u32; cells]?;
        Ok(Curve { held, used: 0 })
    }

    /// The number of cells that the curve has room for.
    pub fn room(&self) -> usize
        ensures room { result ≡ self.now.room }
        ensures most { result ≤ 65536 }
    {
        self.held.len()
    }

    /// The number of cells.
    pub fn len(&self) -> usize
        ensures len { result ≡ length self.now.cells }
        ensures within { result ≤ self.now.room }
        ensures most { result ≤ 65536 }
        ensures at_most_one { IsAtMostOne (cell self.now.cells) }
    {
        self.used
    }

    /// Whether there are no cells.
    pub fn is_empty(&self) -> bool
        ensures { IsTrue result ↔ (self.now.cells ≡ []) }
    {
        self.used == 0
    }

    /// The value at cell x, in parts of `ONE`: 0 past the last cell.
    pub fn cell(&self, x: u64) -> u64
        ensures value { result ≡ cell self.now.cells x }
        ensures small { result ≤ ONE }
    {
        if x < self.used as u64 {
            u64::from(self.held[x as usize])
        } else {
            0
        }
    }

    /// The cells, each in parts of `ONE`.
    pub fn as_slice(&self) -> &[u32]
        ensures value { result.now ≡ self.now.cells }
        ensures small { IsAtMostOne (cell self.now.cells) }
    {
        &self.held[..self.used]
    }

    /// Takes away all cells. The room stays.
    pub fn clear(&mut self)
        ensures { self.new ≡ record self.old { cells = [] } }
    {
        self.used = 0;
    }

    /// Adds a cell of `value` parts of `ONE` at the end.
    pub fn push(&mut self, value: u64)
        requires room { length self.old.cells < self.old.room }
        requires small { value ≤ ONE }
        ensures { self.new ≡ record self.old { cells = self.old.cells ++ value ∷ [] } }
    {
        self.held[self.used] = value as u32;
        self.used += 1;
    }

    /// Takes over the cells of `other`. The room stays.
    pub fn copy_from(&mut self, other: &Curve)
        requires room { length other.now.cells ≤ self.old.room }
        ensures { self.new ≡ record self.old { cells = other.now.cells } }
    {
        let used = other.used;
        copy_cells(used, other.held.as_slice(), self.held.as_mut_slice());
        self.used = used;
    }

    /// Keeps the first `len` cells, or all where there are no more.
    pub fn truncate(&mut self, len: u64)
        ensures { self.new ≡ record self.old { cells = take len self.old.cells } }
    {
        if len < self.used as u64 {
            self.used = len as usize;
        }
    }

    /// Takes out `count` cells from cell `from` on, or those that there are, so that the later cells move down.
    pub fn remove(&mut self, from: u64, count: u64)
        ensures { self.new ≡ record self.old { cells = take from self.old.cells ++ drop (from + count) self.old.cells } }
    {
        let used = self.used as u64;
        if from < used {
            let gap = count.min(used - from) as usize;
            close_gap(self.held.as_mut_slice(), from as usize, gap, self.used);
            self.used -= gap;
        }
    }

    /// Convolves a unit of `capacity` cells, with an outage rate in parts of `M`, onto the curve:
    /// `floor(((M - outage) * F(x) + outage * F(x - capacity)) / M)` in place of each F(x), after
    /// Baleriaux and Booth. The list gets longer by `capacity`.
    pub fn convolve(&mut self, capacity: u64, outage: u64)
        requires room { length self.old.cells + capacity ≤ self.old.room }
        requires rate { outage ≤ M }
        ensures room { self.new.room ≡ self.old.room }
        ensures len { length self.new.cells ≡ length self.old.cells + capacity }
        ensures value { (x : ℕ) → cell self.new.cells x ≡ eq_step (cell self.old.cells) capacity outage x }

        // A curve that is at most k below the exact load of some units is at most k + 1 below that of one unit more.
        ensures rounding { (k : ℕ) (base : ℕ → ℕ) (parts : List Part) → IsWithin k (cell self.old.cells) base parts → IsWithin (k + 1) (cell self.new.cells) base (parts ++ record { capacity = capacity; rate = outage } ∷ []) }
    {
        let capacity = capacity as usize;
        let end = self.used + capacity;
        zero_cells(self.held.as_mut_slice(), self.used, end);
        convolve_cells(outage as u32, capacity, end, self.held.as_mut_slice());
        self.used = end;
    }

    /// The sum of the cells from `from` up to, and without, `to`, which is at most 131,072.
    pub fn area(&self, from: u64, to: u64) -> u64
        requires order { from ≤ to }
        requires within { to ≤ 131072 }
        ensures value { result ≡ area (cell self.now.cells) from to }
        ensures small { result ≤ (to - from) * ONE }
    {
        let to = (to as usize).min(self.used);
        let from = (from as usize).min(to);
        sum_cells(self.held.as_slice(), from, to)
    }
}

#[cfg(test)]
mod tests {
    use super::*;
    use std::test::Fail;

    /// A unit of one cell that is out one ten-thousandth of the time, onto the cells 0 and 1.
    #[test]
    fn a_convolution_is_rounded_down(rt: HostRuntime) -> Result<(), Fail> {
        let mut curve = Curve::with_room(rt.alloc(), 3)?;
        curve.push(0);
        curve.push(1);
        curve.convolve(1, 1);
        assert_eq!(rt; curve.len(), 3);
        assert_eq!(rt; curve.cell(0), 100_000);
        assert_eq!(rt; curve.cell(1), 0);
        assert_eq!(rt; curve.cell(2), 0);
        Ok(())
    }

    #[test]
    fn two_units_are_out_at_once(rt: HostRuntime) -> Result<(), Fail> {
        let mut curve = Curve::with_room(rt.alloc(), 3)?;
        assert_eq!(rt; curve.room(), 3);
        curve.push(ONE);
        curve.convolve(1, 1_000);
        curve.convolve(1, 2_000);
        assert_eq!(rt; curve.cell(1), 280_000_000);
        assert_eq!(rt; curve.area(1, 131_072), 300_000_000);
        Ok(())
    }

    #[test]
    fn cells_are_taken_over_and_away(rt: HostRuntime) -> Result<(), Fail> {
        let mut curve = Curve::with_room(rt.alloc(), 2)?;
        curve.push(ONE);
        curve.push(5);
        let mut other = Curve::with_room(rt.alloc(), 2)?;
        other.copy_from(&curve);
        other.remove(0, 1);
        assert_eq!(rt; other.cell(0), 5);
        curve.truncate(1);
        assert_eq!(rt; curve.len(), 1);
        curve.clear();
        assert_eq!(rt; curve.cell(0), 0);
        let empty = Curve::new(rt.alloc());
        assert!(rt; empty.is_empty());
        Ok(())
    }
}
