//! Where a list of units is loaded, one after the other.
ghost use Rattle.std.specs.Prelude.{◌≡◌, ℕ, ◌+◌, ◌*◌, ◌<◌, ◌≤◌, [], length, take, All, IfOk, slice_index};
ghost use Rattle.wasp_fixed.specs.Curves.{area, cell, IsAtMostOne, NeverRises};
ghost use Rattle.sim_fast.specs.Behind.{shifted_step};
ghost use Rattle.sim_fast.specs.Turns.{IsTurn, KeepsBench, StandsAt};

use crate::stored::StoredCurve;
use crate::tail::Tail;
use crate::turn::{MAX_UNITS, Turn};
use std::alloc::Global;
use std::marker::Model;
use std::mem::swap;
use wasp_fixed::{M, ONE, OutOfMemory};

/// Copies the first `n` places of a row.
pub fn copy_row(from: &[u64], n: usize, to: &mut [u64])
    requires from { n ≤ length from.now }
    requires to { n ≤ length to.old }
    ensures { (j : ℕ) → j < n → slice_index to.new j ≡ slice_index from.now j }
{
    for j in 0..n {
        to[j] = from[j];
    }
}

/// The load past the units so far, and what each of them covers, in rooms that are made once.
#[derive(Drop)]
pub struct Workbench {
    curve: Tail,
    spare: Tail,
    /// What the base block of each unit covers, in cells times `ONE`.
    lower: Vec<u64>,
    /// What its peak block covers, in the same unit.
    upper: Vec<u64>,
}

impl Model for Workbench {
    ghost use Rattle.std.specs.Prelude.{◌≡◌, length};
    ghost use Rattle.sim_fast.specs.Turns.{BenchView};

    ghost Value = { BenchView };

    ghost view = { λ w. record { cells = w.curve.cells; lower = w.lower.items; upper = w.upper.items; room = w.curve.room; places = length w.lower.items } };

    ghost invariant = { λ w. (w.spare.room ≡ w.curve.room) × (length w.upper.items ≡ length w.lower.items) };
}

impl Workbench {
    /// A bench with no room, which takes no memory.
    pub fn new(alloc: Global) -> Workbench
        ensures room { result.room ≡ 0 }
        ensures places { result.places ≡ 0 }
    {
        Workbench {
            curve: Tail::new(alloc),
            spare: Tail::new(alloc),
            lower: Vec::new(alloc),
            upper: Vec::new(alloc),
        }
    }

    /// A bench with room for `cells` cells, at most 65,536, and for `MAX_UNITS` units. Errors: want of memory.
    pub fn with_room(alloc: Global, cells: usize) -> Result<Workbench, OutOfMemory>
        requires cells { cells ≤ 65536 }
        ensures room { IfOk result (λ w. w.room ≡ cells) }
        ensures places { IfOk result (λ w. w.places ≡ MAX_UNITS) }
    {
        Ok(Workbench {
            curve: Tail::with_room(alloc, cells)?,
            spare: Tail::with_room(alloc, cells)?,
            lower: vec![in alloc; 0u64; MAX_UNITS]?,
            upper: vec![in alloc; 0u64; MAX_UNITS]?,
        })
    }

    /// The number of cells that there is room for.
    pub fn room(&self) -> usize
        ensures { result ≡ self.now.room }
    {
        self.curve.room()
    }

    /// The number of units that there is room for.
    pub fn places(&self) -> usize
        ensures { result ≡ self.now.places }
    {
        self.lower.len()
    }

    /// Begins with a load behind which nothing is loaded.
    pub fn begin(&mut self, load: &Tail)
        requires room { length load.now.cells ≤ self.old.room }
        ensures tail { (y : ℕ) → cell self.new.cells y ≡ cell load.now.cells y }
        ensures len { length self.new.cells ≤ length load.now.cells }
        ensures room { self.new.room ≡ self.old.room }
        ensures places { self.new.places ≡ self.old.places }
    {
        self.curve.copy_from(load);
    }

    /// The number of cells.
    pub fn len(&self) -> usize
        ensures value { result ≡ length self.now.cells }
        ensures within { result ≤ self.now.room }
    {
        self.curve.len()
    }

    /// The load past the units so far. Its first cell is the first that is not loaded.
    pub fn curve(&self) -> &Tail
        ensures cells { result.now.cells ≡ self.now.cells }
        ensures within { length self.now.cells ≤ self.now.room }
    {
        let _within = self.curve.len();
        &self.curve
    }

    /// What the base block of each unit covers, in cells times `ONE`, by its place in the list.
    pub fn lower(&self) -> &[u64]
        ensures value { result.now ≡ self.now.lower }
        ensures len { length self.now.lower ≡ self.now.places }
    {
        self.lower.as_slice()
    }

    /// What the peak block of each unit covers, in cells times `ONE`, by its place in the list.
    pub fn upper(&self) -> &[u64]
        ensures value { result.now ≡ self.now.upper }
        ensures len { length self.now.upper ≡ self.now.places }
    {
        self.upper.as_slice()
    }

    /// Goes on from what was kept behind the first `n` units.
    pub fn resume(&mut self, curve: &StoredCurve, lower: &[u64], upper: &[u64], n: usize)
        requires room { length curve.now.cells ≤ self.old.room }
        requires lower { n ≤ length lower.now }
        requires upper { n ≤ length upper.now }
        requires places { n ≤ self.old.places }
        ensures tail { (y : ℕ) → cell self.new.cells y ≡ cell curve.now.cells y }
        ensures lower { (j : ℕ) → j < n → slice_index self.new.lower j ≡ slice_index lower.now j }
        ensures upper { (j : ℕ) → j < n → slice_index self.new.upper j ≡ slice_index upper.now j }
        ensures room { self.new.room ≡ self.old.room }
        ensures places { self.new.places ≡ self.old.places }
    {
        self.curve.restore(curve);
        copy_row(lower, n, self.lower.as_mut_slice());
        copy_row(upper, n, self.upper.as_mut_slice());
    }

    /// Loads one unit more, the one at place `k`.
    pub fn load(&mut self, k: usize, turn: &Turn)
        requires place { k < self.old.places }
        requires room { length self.old.cells ≤ self.old.room }
        requires order { turn.now.least ≤ turn.now.full }
        requires full { turn.now.full ≤ 65536 }
        requires rate { turn.now.rate ≤ M }
        ensures tail { (y : ℕ) → cell self.new.cells y ≡ shifted_step (cell self.old.cells) turn.now.full turn.now.rate y }
        ensures lower { slice_index self.new.lower k ≡ area (cell self.old.cells) 0 turn.now.least }
        ensures upper { slice_index self.new.upper k ≡ area (cell self.old.cells) turn.now.least turn.now.full }
        ensures lower_kept { (j : ℕ) → j < k → slice_index self.new.lower j ≡ slice_index self.old.lower j }
        ensures upper_kept { (j : ℕ) → j < k → slice_index self.new.upper j ≡ slice_index self.old.upper j }
        ensures len { length self.new.cells ≤ length self.old.cells }
        ensures room { self.new.room ≡ self.old.room }
        ensures places { self.new.places ≡ self.old.places }
    {
        self.lower[k] = self.curve.area(0, turn.least);
        self.upper[k] = self.curve.area(turn.least, turn.full);
        self.curve.step_into(turn.full, turn.rate, &mut self.spare);
        swap(&mut self.curve, &mut self.spare);
    }
}

/// Loads the units of a list from place `from` on.
pub fn load_rest(bench: &mut Workbench, turns: &[Turn], from: usize, to: usize)
    requires order { from ≤ to }
    requires within { to ≤ length turns.now }
    requires turns { All IsTurn turns.now }
    requires places { length turns.now ≤ bench.old.places }
    requires room { length bench.old.cells ≤ bench.old.room }
    ensures stands { (base : ℕ → ℕ) → StandsAt base turns.now from bench.old → StandsAt base turns.now to bench.new }
    ensures kept { KeepsBench bench.old bench.new }
{
    for k in from..to {
        bench.load(k, &turns[k]);
    }
}
