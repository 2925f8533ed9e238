//! The memory of a session.
ghost use Rattle.std.specs.Prelude.{◌≡◌, ◌≤◌, ◌*◌, All, IfOk, OnErr, OnOk, length};
ghost use Rattle.deck_lines.specs.Deck.{body_of};
ghost use Rattle.row_shelf.specs.Shelf.{IsShelf};
ghost use Rattle.case_study.specs.Inner.{FitYears, IsOfLists};
ghost use Rattle.deck_tellings.specs.Memory.{no_memory};
ghost use Rattle.deck_tellings.specs.Learning.{GainsFew, HasRoomFor, IsLost, Learns};
ghost use Rattle.case_study.specs.Studies.{AreSystems, HasYears};

use checked_deck::TypedDeck;
use row_shelf::{CaseLists, Shelf};
use sim_engine::SimEngine;
use sim_sweep::Tally;
use std::alloc::Global;
use std::marker::Model;
use std::thread::Threads;
use wasp_fixed::OutOfMemory;
use year_system::YearSystem;

/// The systems and the rows of a run, and how many rows sweeps have filled.
#[derive(Drop)]
pub struct Memory {
    shelf: Shelf,
    tally: Tally,
}

impl Model for Memory {
    ghost use Rattle.row_shelf.specs.Shelf.{IsShelf};
    ghost use Rattle.deck_tellings.specs.Memory.{MemoryIs};

    ghost Value = { MemoryIs };

    ghost view = { λ m. record { shelf = m.shelf; tally = m.tally } };

    ghost invariant = { λ m. IsShelf m.shelf };
}

impl Memory {
    /// Without a system or a row. It takes no memory.
    pub fn empty(alloc: Global) -> Memory
        ensures { result ≡ no_memory }
    {
        Memory {
            shelf: Shelf::new(alloc),
            tally: Tally::new(),
        }
    }

    /// The systems and the rows.
    pub fn shelf(&self) -> &Shelf
        ensures value { result.now ≡ self.now.shelf }
        ensures valid { IsShelf self.now.shelf }
    {
        &self.shelf
    }

    /// How many rows sweeps have filled.
    pub fn into_tally(self) -> Tally
        ensures { result ≡ self.tally }
    {
        let Memory { tally, .. } = self;
        tally
    }

    /// Gives the systems of a deck's years numbers, and has the rows of the listed keys: the engines simulate those
    /// that are new, each once.
    pub fn learn<E: SimEngine, R: Threads + Sync>(
        &mut self,
        rt: &R,
        typed: &TypedDeck,
        systems: Vec<YearSystem>,
        cases: &[CaseLists],
        engines: &mut [E],
    ) -> Result<Vec<u64>, OutOfMemory>
        requires some { 1 ≤ length engines.old }
        requires most { length engines.old ≤ 64 }
        requires systems { AreSystems (body_of typed.now) systems.items }
        requires lists { All (FitYears (body_of typed.now)) cases.now }
        requires place { HasRoomFor (15000 * length cases.now) self.old }
        ensures numbers { IfOk result (λ ids. HasYears (body_of typed.now) self.new.shelf.book ids.items) }
        ensures learns { OnOk result (Learns (Unit {0}) (IsOfLists (body_of typed.now) cases.now) (body_of typed.now)
            self.old self.new E.work engines.old engines.new 0) }
        ensures few { OnOk result (GainsFew (15000 * length cases.now) self.old self.new) }
        ensures err { OnErr result (IsLost (Unit {0}) (IsOfLists (body_of typed.now) cases.now) (body_of typed.now)
            self.old self.new E.work engines.old engines.new) }
    {
        // Its reading tells the proof that there are at most 30 years.
        let _years = typed.years();
        let taken = self.shelf.take_in(systems);
        // Its reading tells the proof that the systems are ones, no two the same.
        let _systems = self.shelf.systems();
        let ids = taken?;
        let filled = self.shelf.fill(rt, &ids, cases, engines, &mut self.tally);
        // Its reading tells the proof that each row is that of its key.
        let _rows = self.shelf.len();
        filled?;
        Ok(ids)
    }
}
