//! The cells of a curve that is kept.
ghost use Rattle.std.specs.Prelude.{◌≡◌, ℕ, ◌<◌, ◌≤◌, [], IfOk, length};
ghost use Rattle.wasp_fixed.specs.Curves.{cell, IsAtMostOne, NeverRises};
ghost use Rattle.wasp_fixed.specs.declared.numbers.TheConstants.{ONE};

use crate::tail::Tail;
use std::alloc::Global;
use std::marker::Model;
use wasp_fixed::OutOfMemory;

/// A copy of a curve's cells from the last loaded cell on, in a room that is set aside once.
///
/// Nothing is written to the room before a curve is kept there, so that the many rooms of an engine cost no time where a
/// deck does not need them: the system gives a page of memory to a process when it is first written to.
#[derive(Drop)]
pub struct StoredCurve {
    /// The curve's cells.
    cells: Vec<u32>,
    /// There is room for so many.
    room: usize,
    /// So many cells at the front are one, and maybe more.
    ones: usize,
}

impl Model for StoredCurve {
    ghost use Rattle.std.specs.Prelude.{◌≤◌, length, vec_capacity};
    ghost use Rattle.sim_fast.specs.TailView.{IsStored, TailView};

    ghost Value = { TailView };

    ghost view = { λ s. record { cells = s.cells.items; room = s.room } };

    ghost invariant = { λ s. IsStored s.cells.items s.ones × (length s.cells.items ≤ s.room) × (s.room ≤ vec_capacity s.cells) };
}

impl StoredCurve {
    /// A curve of no cells with room for `cells` cells. The only call that takes memory, and its want is the only error.
    pub fn with_room(alloc: Global, cells: usize) -> Result<StoredCurve, OutOfMemory>
        ensures { IfOk result (λ stored. stored ≡ record { cells = []; room = cells }) }
    {
        let held = Vec::with_capacity(alloc, cells)?;
        Ok(StoredCurve {
            cells: held,
            room: cells,
            ones: 0,
        })
    }

    /// Keeps the cells of a curve.
    pub fn keep(&mut self, curve: &Tail)
        requires room { length curve.now.cells ≤ self.old.room }
        ensures { self.new ≡ record self.old { cells = curve.now.cells } }
    {
        self.cells.clear();
        match self.cells.extend_from_slice(curve.cells()) {
            Ok(()) => self.ones = curve.ones(),
            Err(_) => unreachable!(),
        }
    }

    /// The number of cells.
    pub(crate) fn len(&self) -> usize
        ensures value { result ≡ length self.now.cells }
        ensures within { result ≤ self.now.room }
    {
        self.cells.len()
    }

    /// The cells.
    pub(crate) fn cells(&self) -> &[u32]
        ensures value { result.now ≡ self.now.cells }
        ensures falls { NeverRises (cell self.now.cells) }
        ensures small { IsAtMostOne (cell self.now.cells) }
    {
        self.cells.as_slice()
    }

    /// So many cells at the front are one, and maybe more.
    pub(crate) fn ones(&self) -> usize
        ensures front { result ≤ length self.now.cells }
        ensures first { (x : ℕ) → x < result → cell self.now.cells x ≡ ONE }
    {
        self.ones
    }
}
