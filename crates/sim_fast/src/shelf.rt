//! What is kept behind the beginnings of lists of units, over one load.
ghost use Rattle.std.specs.Prelude.{◌≡◌, ℕ, ◌+◌, ◌<◌, ◌≤◌, [], IsTrue, IfOk, length, take};
ghost use Rattle.wasp_fixed.specs.Curves.{cell, IsAtMostOne, NeverRises};
ghost use Rattle.sim_fast.specs.declared.turn.TheConstants.{MAX_UNITS};
ghost use Rattle.sim_fast.specs.Turns.{StandsAt};
ghost use Rattle.sim_fast.specs.Kept.{IsShelf, IsStart, kept_at};

use crate::kept::Kept;
use crate::tail::Tail;
use crate::turn::Turn;
use crate::workbench::Workbench;
use std::alloc::Global;
use std::marker::Model;
use wasp_fixed::OutOfMemory;

/// Whether what is kept begins a list, and has more than `most` units.
fn is_longer(kept: &Kept, turns: &[Turn], most: usize) -> bool
    ensures some { IsTrue result → most < length kept.now.turns }
    ensures starts { IsTrue result → kept.now.turns ≡ take (length kept.now.turns) turns.now }
{
    kept.len() > most && kept.begins(turns)
}

/// The place of the longest beginning of a list that is kept, or the number of places where none is.
fn longest(kept: &[Kept], turns: &[Turn]) -> usize
    ensures { result < length kept.now → IsStart kept.now turns.now result }
{
    let mut best = kept.len();
    let mut most = 0;
    for i in 0..kept.len() {
        if is_longer(&kept[i], turns, most) {
            best = i;
            most = kept[i].len();
        }
    }
    best
}

/// Notes each beginning of a list that is kept.
fn touch_all(kept: &mut [Kept], turns: &[Turn], age: u64)
    ensures { kept.new ≡ kept.old }
{
    for i in 0..kept.len() {
        if kept[i].begins(turns) {
            kept[i].touch(age);
        }
    }
}

/// The place of what was used longest ago.
fn oldest(kept: &[Kept]) -> usize
    requires { 0 < length kept.now }
    ensures { result < length kept.now }
{
    let mut best = 0;
    for i in 1..kept.len() {
        if kept[i].age() < kept[best].age() {
            best = i;
        }
    }
    best
}

/// Keeps nothing at all places.
fn clear_all(kept: &mut [Kept])
    requires rooms { (i : ℕ) → i < length kept.old → (kept_at kept.old i).places ≡ MAX_UNITS }
    ensures empty { (i : ℕ) → i < length kept.old → kept_at kept.new i ≡ record (kept_at kept.old i) { turns = [] } }
{
    for i in 0..kept.len() {
        kept[i].clear();
    }
}

/// Makes a bench stand behind the longest beginning of a list that is kept, and answers how many units it has.
fn resume_from(
    kept: &mut [Kept],
    load: &Tail,
    turns: &[Turn],
    age: u64,
    bench: &mut Workbench,
) -> usize
    requires shelf { IsShelf (cell load.now.cells) load.now.room kept.old }
    requires room { load.now.room ≤ bench.old.room }
    requires places { MAX_UNITS ≤ bench.old.places }
    ensures within { result ≤ length turns.now }
    ensures stands { StandsAt (cell load.now.cells) turns.now result bench.new }
    ensures kept { kept.new ≡ kept.old }
    ensures room { bench.new.room ≡ bench.old.room }
    ensures places { bench.new.places ≡ bench.old.places }
{
    let best = longest(kept, turns);
    if best < kept.len() {
        touch_all(kept, turns, age);
        kept[best].put_into(bench);
        kept[best].len()
    } else {
        let _within = load.len();
        bench.begin(load);
        0
    }
}

/// Keeps the first `n` units of a list, behind which a bench stands, in place of what was used longest ago.
fn keep_oldest(kept: &mut [Kept], turns: &[Turn], n: usize, age: u64, bench: &Workbench)
    requires some { 0 < length kept.old }
    requires within { n ≤ length turns.now }
    requires few { length turns.now ≤ MAX_UNITS }
    requires bench_places { length turns.now ≤ bench.now.places }
    requires rooms { (i : ℕ) → i < length kept.old → bench.now.room ≤ (kept_at kept.old i).room }
    requires places { (i : ℕ) → i < length kept.old → (kept_at kept.old i).places ≡ MAX_UNITS }
    ensures shelf { (base : ℕ → ℕ) (room : ℕ) → StandsAt base turns.now n bench.now → IsShelf base room kept.old → IsShelf base room kept.new }
{
    let place = oldest(kept);
    kept[place].take_from(turns, n, age, bench);
}

/// So many places at which nothing is kept.
fn make_kept(alloc: Global, cells: usize, count: usize) -> Result<Vec<Kept>, OutOfMemory>
    requires { cells ≤ 65536 }
    ensures { IfOk result (λ kept. (base : ℕ → ℕ) → IsShelf base cells kept.items) }
{
    let mut kept = Vec::new(alloc);
    for _ in 0..count {
        kept.push(Kept::with_room(alloc, cells)?)?;
    }
    Ok(kept)
}

/// A load, and what is kept behind the beginnings of lists of units over it.
///
/// What is kept shows in no contract: the first units of a list stand on a bench with it or without it.
#[derive(Drop)]
pub struct CurveShelf {
    load: Tail,
    kept: Vec<Kept>,
    /// The number of lists so far; it stands at its last value.
    lists: u64,
}

impl Model for CurveShelf {
    ghost use Rattle.std.specs.Prelude.{◌≡◌, ◌<◌, length};
    ghost use Rattle.wasp_fixed.specs.Curves.{cell};
    ghost use Rattle.sim_fast.specs.Turns.{ShelfView};
    ghost use Rattle.sim_fast.specs.Kept.{IsShelf};

    ghost Value = { ShelfView };

    ghost view = { λ s. record { load = s.load.cells; room = s.load.room } };

    ghost invariant = { λ s. IsShelf (cell s.load.cells) s.load.room s.kept.items };
}

impl CurveShelf {
    /// A shelf with room for `cells` cells, at most 65,536, that keeps `count` beginnings. Its load is 0 everywhere.
    /// Errors: want of memory.
    pub fn with_room(alloc: Global, cells: usize, count: usize) -> Result<CurveShelf, OutOfMemory>
        requires { cells ≤ 65536 }
        ensures { IfOk result (λ s. s ≡ record { load = []; room = cells }) }
    {
        Ok(CurveShelf {
            load: Tail::with_room(alloc, cells)?,
            kept: make_kept(alloc, cells, count)?,
            lists: 0,
        })
    }

    /// The number of cells that there is room for.
    pub fn room(&self) -> usize
        ensures { result ≡ self.now.room }
    {
        self.load.room()
    }

    /// Whether a load, in parts of `ONE`, is the shelf's. Zeros at its end do not count.
    pub fn has_load(&self, cells: &[u32]) -> bool
        ensures { IsTrue result → (x : ℕ) → cell self.now.load x ≡ cell cells.now x }
    {
        self.load.is_curve(cells)
    }

    /// Takes another load, in parts of `ONE`, and forgets what was kept.
    pub fn set_load(&mut self, cells: &[u32])
        requires room { length cells.now ≤ self.old.room }
        requires falls { NeverRises (cell cells.now) }
        requires small { IsAtMostOne (cell cells.now) }
        ensures value { (x : ℕ) → cell self.new.load x ≡ cell cells.now x }
        ensures room { self.new.room ≡ self.old.room }
    {
        clear_all(self.kept.as_mut_slice());
        self.load.fill(cells);
    }

    /// The number of cells of the load.
    pub fn len(&self) -> usize
        ensures value { result ≡ length self.now.load }
        ensures within { result ≤ self.now.room }
        ensures falls { NeverRises (cell self.now.load) }
        ensures small { IsAtMostOne (cell self.now.load) }
    {
        self.load.len()
    }

    /// Makes a bench stand behind as much of a list of units as is kept, and answers how many units that is.
    pub fn resume(&mut self, turns: &[Turn], bench: &mut Workbench) -> usize
        requires room { self.old.room ≤ bench.old.room }
        requires places { MAX_UNITS ≤ bench.old.places }
        ensures within { result ≤ length turns.now }
        ensures stands { StandsAt (cell self.old.load) turns.now result bench.new }
        ensures shelf { self.new ≡ self.old }
        ensures room { bench.new.room ≡ bench.old.room }
        ensures places { bench.new.places ≡ bench.old.places }
    {
        self.lists = self.lists.saturating_add(1);
        resume_from(
            self.kept.as_mut_slice(),
            &self.load,
            turns,
            self.lists,
            bench,
        )
    }

    /// Keeps the first `n` units of a list, behind which a bench stands, in place of what was used longest ago. A
    /// shelf of no beginnings keeps nothing.
    pub fn keep(&mut self, turns: &[Turn], n: usize, bench: &Workbench)
        requires within { n ≤ length turns.now }
        requires few { length turns.now ≤ MAX_UNITS }
        requires bench_places { length turns.now ≤ bench.now.places }
        requires room { bench.now.room ≤ self.old.room }
        requires stands { StandsAt (cell self.old.load) turns.now n bench.now }
        ensures { self.new ≡ self.old }
    {
        if !self.kept.is_empty() {
            keep_oldest(self.kept.as_mut_slice(), turns, n, self.lists, bench);
        }
    }
}
