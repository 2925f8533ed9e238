//! A curve from the last loaded cell on, with room for a fixed number of cells.
ghost use Rattle.std.specs.Prelude.{◌≡◌, ℕ, ◌+◌, ◌-◌, ◌*◌, ◌<◌, ◌≤◌, [], length, IfOk, IsTrue};
ghost use Rattle.wasp_fixed.specs.Curves.{area, cell, IsAtMostOne, NeverRises};
ghost use Rattle.sim_fast.specs.Behind.{shifted_step};

use crate::shift::{find_ones, is_start, put_behind, sum_cells, take_over};
use crate::stored::StoredCurve;
use std::alloc::Global;
use std::marker::Model;
use wasp_fixed::{M, ONE, OutOfMemory};

/// An equivalent load in cells, of which the first is the first that is not loaded.
///
/// Each cell is a share of time in parts of `ONE`. Cells past the list are 0, and no cell is above one before it.
/// The room is set once, so no later call takes memory. Zeros at the end are cut off, and the cells at the front
/// that are one are counted, so that neither is computed again.
#[derive(Drop)]
pub struct Tail {
    /// As long as the room; the first `used` cells are the curve's.
    held: Vec<u32>,
    used: usize,
    /// So many cells at the front are one, and maybe more.
    ones: usize,
}

impl Model for Tail {
    ghost use Rattle.std.specs.Prelude.{◌≡◌, ℕ, ◌<◌, ◌≤◌, length, take};
    ghost use Rattle.wasp_fixed.specs.Curves.{cell, IsAtMostOne, NeverRises};
    ghost use Rattle.wasp_fixed.specs.declared.numbers.TheConstants.{ONE};
    ghost use Rattle.sim_fast.specs.TailView.{IsHeld, TailView};

    ghost Value = { TailView };

    ghost view = { λ t. record { cells = take t.used t.held.items; room = length t.held.items } };

    ghost invariant = { λ t. IsHeld t.held.items t.used t.ones };
}

impl Tail {
    /// A curve of no cells with no room, which takes no memory.
    pub fn new(alloc: Global) -> Tail
        ensures { result ≡ record { cells = []; room = 0 } }
    {
        Tail {
            held: Vec::new(alloc),
            used: 0,
            ones: 0,
        }
    }

    /// A curve of no cells with room for `cells` cells, at most 65,536. The only call that takes memory, and its
    /// want is the only error.
    pub fn with_room(alloc: Global, cells: usize) -> Result<Tail, OutOfMemory>
        requires { cells ≤ 65536 }
        ensures { IfOk result (λ tail. tail ≡ record { cells = []; room = cells }) }
    {
        let held = vec![in alloc; 0u32; cells]?;
        Ok(Tail {
            held,
            used: 0,
            ones: 0,
        })
    }

    /// The number of cells.
    pub fn len(&self) -> usize
        ensures value { result ≡ length self.now.cells }
        ensures within { result ≤ self.now.room }
        ensures most { result ≤ 65536 }
        ensures falls { NeverRises (cell self.now.cells) }
        ensures small { IsAtMostOne (cell self.now.cells) }
    {
        self.used
    }

    /// The number of cells that there is room for.
    pub fn room(&self) -> usize
        ensures { result ≡ self.now.room }
    {
        self.held.len()
    }

    /// Whether some cells are the curve's.
    pub fn is_curve(&self, cells: &[u32]) -> bool
        ensures { IsTrue result → (x : ℕ) → cell self.now.cells x ≡ cell cells.now x }
    {
        is_start(&self.held[..self.used], cells)
    }

    /// The value at the first cell that is not loaded, in parts of `ONE`.
    pub fn first(&self) -> u64
        ensures value { result ≡ cell self.now.cells 0 }
        ensures small { result ≤ ONE }
    {
        if self.used == 0 {
            0
        } else {
            self.held[0] as u64
        }
    }

    /// Takes over the cells of a curve behind which nothing is loaded.
    pub fn fill(&mut self, cells: &[u32])
        requires room { length cells.now ≤ self.old.room }
        requires falls { NeverRises (cell cells.now) }
        requires small { IsAtMostOne (cell cells.now) }
        ensures value { (x : ℕ) → cell self.new.cells x ≡ cell cells.now x }
        ensures len { length self.new.cells ≤ length cells.now }
        ensures room { self.new.room ≡ self.old.room }
    {
        let ends = take_over(find_ones(cells), cells, self.held.as_mut_slice());
        self.used = ends.used;
        self.ones = ends.ones;
    }

    /// The cells.
    pub(crate) fn cells(&self) -> &[u32]
        ensures value { result.now ≡ self.now.cells }
        ensures falls { NeverRises (cell self.now.cells) }
        ensures small { IsAtMostOne (cell self.now.cells) }
    {
        &self.held[..self.used]
    }

    /// So many cells at the front are one, and maybe more.
    pub(crate) fn ones(&self) -> usize
        ensures front { result ≤ length self.now.cells }
        ensures first { (x : ℕ) → x < result → cell self.now.cells x ≡ ONE }
    {
        self.ones
    }

    /// Takes over the cells of a curve that was kept.
    pub fn restore(&mut self, stored: &StoredCurve)
        requires room { length stored.now.cells ≤ self.old.room }
        ensures value { (x : ℕ) → cell self.new.cells x ≡ cell stored.now.cells x }
        ensures len { length self.new.cells ≤ length stored.now.cells }
        ensures room { self.new.room ≡ self.old.room }
    {
        let ends = take_over(stored.ones(), stored.cells(), self.held.as_mut_slice());
        self.used = ends.used;
        self.ones = ends.ones;
    }

    /// Takes over the cells of another curve.
    pub fn copy_from(&mut self, other: &Tail)
        requires room { length other.now.cells ≤ self.old.room }
        ensures value { (x : ℕ) → cell self.new.cells x ≡ cell other.now.cells x }
        ensures len { length self.new.cells ≤ length other.now.cells }
        ensures room { self.new.room ≡ self.old.room }
    {
        let ends = take_over(
            other.ones,
            &other.held[..other.used],
            self.held.as_mut_slice(),
        );
        self.used = ends.used;
        self.ones = ends.ones;
    }

    /// Makes `after` the curve behind a unit more, of `capacity` cells and an outage rate in parts of `M`, each cell
    /// rounded down once.
    pub fn step_into(&self, capacity: u64, rate: u64, after: &mut Tail)
        requires room { length self.now.cells ≤ after.old.room }
        requires rate { rate ≤ M }
        requires capacity { capacity ≤ 65536 }
        ensures value { (x : ℕ) → cell after.new.cells x ≡ shifted_step (cell self.now.cells) capacity rate x }
        ensures len { length after.new.cells ≤ length self.now.cells }
        ensures room { after.new.room ≡ after.old.room }
    {
        let ends = put_behind(
            rate,
            capacity as usize,
            self.ones,
            &self.held[..self.used],
            after.held.as_mut_slice(),
        );
        after.used = ends.used;
        after.ones = ends.ones;
    }

    /// The sum of the cells from `from` up to, and without, `to`, which is at most 131,072: an area in cells times
    /// `ONE`.
    pub fn area(&self, from: u64, to: u64) -> u64
        requires order { from ≤ to }
        requires within { to ≤ 131072 }
        ensures value { result ≡ area (cell self.now.cells) from to }
        ensures small { result ≤ (to - from) * ONE }
    {
        let to = (to as usize).min(self.used);
        let from = (from as usize).min(to);
        sum_cells(self.held.as_slice(), from, to)
    }
}
