//! What is kept behind the beginning of a list of units.
ghost use Rattle.std.specs.Prelude.{◌≡◌, ℕ, ◌+◌, ◌<◌, ◌≤◌, [], IsTrue, IfOk, length, take, vec_capacity};
ghost use Rattle.wasp_fixed.specs.Curves.{cell};
ghost use Rattle.sim_fast.specs.Kept.{StandsBehind, StandsKept};
ghost use Rattle.sim_fast.specs.Turns.{StandsAt};

use crate::stored::StoredCurve;
use crate::turn::{MAX_UNITS, Turn, begins_with};
use crate::workbench::Workbench;
use std::alloc::Global;
use std::marker::Model;
use wasp_fixed::OutOfMemory;

/// The beginning of a list of units, the load past them, and what each of them covers in cells times `ONE`. There are
/// no units where nothing is kept. The rooms are set aside once, and written to where something is kept.
#[derive(Drop)]
pub struct Kept {
    turns: Vec<Turn>,
    lower: Vec<u64>,
    upper: Vec<u64>,
    curve: StoredCurve,
    /// The number of the list that last began with them.
    age: u64,
}

impl Model for Kept {
    ghost use Rattle.std.specs.Prelude.{◌≡◌, ◌≤◌, length, vec_capacity};
    ghost use Rattle.sim_fast.specs.Kept.{HaveRooms, KeptView};
    ghost use Rattle.sim_fast.specs.declared.turn.TheConstants.{MAX_UNITS};

    ghost Value = { KeptView };

    ghost view = { λ k. record { turns = k.turns.items; cells = k.curve.cells; lower = k.lower.items; upper = k.upper.items; room = k.curve.room; places = MAX_UNITS } };

    ghost invariant = { λ k. HaveRooms MAX_UNITS (vec_capacity k.turns) (vec_capacity k.lower) (vec_capacity k.upper) × (length k.turns.items ≤ MAX_UNITS) × (length k.turns.items ≤ length k.lower.items) × (length k.turns.items ≤ length k.upper.items) };
}

/// Writes items over those of a list with room for them.
fn write_over<T: Copy>(list: &mut Vec<T>, items: &[T])
    requires { length items.now ≤ vec_capacity list.old }
    ensures items { list.new.items ≡ items.now }
    ensures room { vec_capacity list.old ≤ vec_capacity list.new }
{
    list.clear();
    match list.extend_from_slice(items) {
        Ok(()) => {}
        Err(_) => unreachable!(),
    }
}

impl Kept {
    /// Nothing, with room for `cells` cells, at most 65,536, and for `MAX_UNITS` units.
    pub fn with_room(alloc: Global, cells: usize) -> Result<Kept, OutOfMemory>
        requires { cells ≤ 65536 }
        ensures turns { IfOk result (λ k. k.turns ≡ []) }
        ensures room { IfOk result (λ k. k.room ≡ cells) }
        ensures places { IfOk result (λ k. k.places ≡ MAX_UNITS) }
    {
        Ok(Kept {
            turns: Vec::with_capacity(alloc, MAX_UNITS)?,
            lower: Vec::with_capacity(alloc, MAX_UNITS)?,
            upper: Vec::with_capacity(alloc, MAX_UNITS)?,
            curve: StoredCurve::with_room(alloc, cells)?,
            age: 0,
        })
    }

    /// The number of units.
    pub fn len(&self) -> usize
        ensures { result ≡ length self.now.turns }
    {
        self.turns.len()
    }

    /// The number of the list that last began with them.
    pub fn age(&self) -> u64 {
        self.age
    }

    /// Whether a list begins with the units.
    pub fn begins(&self, turns: &[Turn]) -> bool
        ensures { IsTrue result → self.now.turns ≡ take (length self.now.turns) turns.now }
    {
        begins_with(turns, self.turns.as_slice())
    }

    /// Notes that a list began with the units.
    pub fn touch(&mut self, age: u64)
        ensures { self.new ≡ self.old }
    {
        self.age = age;
    }

    /// Keeps nothing.
    pub fn clear(&mut self)
        ensures { self.new ≡ record self.old { turns = [] } }
    {
        self.turns.clear();
        self.age = 0;
    }

    /// Makes a bench stand behind the units.
    pub fn put_into(&self, bench: &mut Workbench)
        requires room { self.now.room ≤ bench.old.room }
        requires places { self.now.places ≤ bench.old.places }
        ensures stands { (base : ℕ → ℕ) → StandsBehind base self.now → StandsAt base self.now.turns (length self.now.turns) bench.new }
        ensures room { bench.new.room ≡ bench.old.room }
        ensures places { bench.new.places ≡ bench.old.places }
    {
        let _within = self.curve.len();
        bench.resume(
            &self.curve,
            self.lower.as_slice(),
            self.upper.as_slice(),
            self.turns.len(),
        );
    }

    /// Keeps the first `n` units of a list, behind which a bench stands.
    pub fn take_from(&mut self, turns: &[Turn], n: usize, age: u64, bench: &Workbench)
        requires within { n ≤ length turns.now }
        requires room { bench.now.room ≤ self.old.room }
        requires places { length turns.now ≤ self.old.places }
        requires bench_places { length turns.now ≤ bench.now.places }
        ensures turns { self.new.turns ≡ take n turns.now }
        ensures stands { (base : ℕ → ℕ) → StandsAt base turns.now n bench.now → StandsKept base turns.now n self.new }
        ensures room { self.new.room ≡ self.old.room }
        ensures places { self.new.places ≡ self.old.places }
    {
        self.curve.keep(bench.curve());
        write_over(&mut self.turns, &turns[..n]);
        write_over(&mut self.lower, &bench.lower()[..n]);
        write_over(&mut self.upper, &bench.upper()[..n]);
        self.age = age;
    }
}
