//! The shelf.
ghost use Rattle.std.specs.Prelude.{◌≡◌, ℕ, ◌+◌, ◌-◌, ◌^◌, ◌<◌, ◌≤◌, [], All, Contains, IfOk, OnErr, OnOk, Some, length, map, slice_get};
ghost use Rattle.cost_terms.specs.CostData.{IsEconomy};
ghost use Rattle.plan_program.specs.Plans.{layer_at};
ghost use Rattle.row_shelf.specs.Adds.{FillsCases};
ghost use Rattle.row_shelf.specs.Asked.{AreNumbers, FitBook, IsAskedIn, asked_count};
ghost use Rattle.row_shelf.specs.Shelf.{Grows, Holds, IsShelf, no_rows};
ghost use Rattle.row_shelf.specs.Tables.{FitEconomy, IsTableBy};
ghost use Rattle.row_shelf.specs.Rooms.{AreWidenedFor, widened_for};
ghost use Rattle.sim_engine.specs.Engine.{Run, raised};
ghost use Rattle.year_system.specs.System.{IsSystem};
ghost use Rattle.sim_sweep.specs.Works.{HaveRun};

use crate::demands::{case_demands, wanted_demands};
use crate::interning::intern_all;
use crate::rooms::{make_ready, room_for};
use cost_terms::{CaseTable, Economy};
use plant_data::{Config, Limit, Listed};
use sim_engine::SimEngine;
use sim_sweep::{CaseJob, Kept, Tally, case_table, due_rows_stand, keep_rows, new_codes_come_once};
use std::alloc::Global;
use std::marker::Model;
use std::thread::Threads;
use wasp_fixed::OutOfMemory;
use year_system::{Book, YearSystem};

/// The listed configurations of each year of a case, in rising order.
pub type CaseLists = Listed<Listed<Config>>;

/// Year systems by their numbers, at most 2,048, and the rows of keys. Contracts see the list of the systems and that
/// of the rows, each under the code of its key.
#[derive(Drop)]
pub struct Shelf {
    alloc: Global,
    book: Book,
    kept: Kept,
}

impl Model for Shelf {
    ghost use Rattle.row_shelf.specs.Shelf.{IsShelf, ShelfIs};

    ghost Value = { ShelfIs };

    ghost view = { λ s. record { book = s.book; kept = s.kept } };

    ghost invariant = { λ s. IsShelf (record { book = s.book; kept = s.kept }) };
}

impl Shelf {
    /// A shelf without a system or a row. It takes no memory.
    pub fn new(alloc: Global) -> Shelf
        ensures { result ≡ no_rows }
    {
        Shelf {
            alloc,
            book: Book::new(alloc),
            kept: Kept::empty(alloc),
        }
    }

    /// The number of rows.
    pub fn len(&self) -> u64
        ensures value { result ≡ length self.now.kept }
        ensures valid { IsShelf self.now }
    {
        self.kept.len()
    }

    /// The number of systems.
    pub fn systems(&self) -> u64
        ensures value { result ≡ length self.now.book }
        ensures most { result ≤ 2048 }
        ensures valid { IsShelf self.now }
    {
        self.book.len()
    }

    /// The system with a number.
    pub fn system(&self, number: u64) -> &YearSystem
        requires within { number < length self.now.book }
        ensures value { slice_get self.now.book number ≡ Some result.now }
        ensures valid { IsSystem result.now }
    {
        self.book.get(number)
    }

    /// The numbers of year systems, in their order; new ones are added to the book. After want of memory some may
    /// have been added.
    pub fn take_in(&mut self, systems: Vec<YearSystem>) -> Result<Vec<u64>, OutOfMemory>
        requires room { length self.old.book + length systems.items ≤ 2048 }
        ensures numbers { IfOk result (λ ids. AreNumbers self.new.book systems.items ids.items) }
        ensures grown { Grows (Contains systems.items) self.old.book self.new.book }
        ensures rows { self.new.kept ≡ self.old.kept }
    {
        let mut ids = Vec::new(self.alloc);
        due_rows_stand();
        let taken = intern_all(&mut self.book, systems, &mut ids);
        // Its reading tells the proof that the systems are ones, no two the same.
        let _systems = self.book.len();
        taken?;
        Ok(ids)
    }

    /// Has the engines simulate each asked key whose row is not here, once, by one of them, and keeps its row. Each
    /// engine is made ready first. A refusal leaves the shelf as before; the engines may have worked all the same.
    #[tactic(auto, using(crate::proofs::RoomSteps::are_same, sim_sweep::proofs::TogetherSteps::idle))]
    pub fn fill<E: SimEngine, R: Threads + Sync>(
        &mut self,
        rt: &R,
        ids: &[u64],
        cases: &[CaseLists],
        engines: &mut [E],
        tally: &mut Tally,
    ) -> Result<(), OutOfMemory>
        requires some { 1 ≤ length engines.old }
        requires most { length engines.old ≤ 64 }
        requires numbers { All (λ id. id < length self.old.book) ids.now }
        requires fit { All (FitBook self.old.book ids.now) cases.now }
        requires place { length self.old.kept + asked_count cases.now < 2 ^ 23 }
        ensures filled { OnOk result (FillsCases ids.now cases.now self.old self.new E.work engines.old engines.new) }
        ensures tally { OnOk result ((new : ℕ) → length self.new.kept ≡ length self.old.kept + new → tally.new ≡ raised new tally.old) }
        ensures few { OnOk result (length self.new.kept ≤ length self.old.kept + asked_count cases.now) }
        ensures rooms { OnOk result (map E.room engines.new ≡ map (widened_for self.old.book ids.now) (map E.room engines.old)) }
        ensures book { self.new.book ≡ self.old.book }
        ensures err { OnErr result (self.new ≡ self.old) }

        // Also after want of memory: the engines simulated some keys together, each once, and nothing else.
        ensures ran { HaveRun tally.old tally.new (map E.work engines.old) (map E.work engines.new) }
        ensures widened { AreWidenedFor self.old.book ids.now (map E.room engines.old) (map E.room engines.new) }
    {
        // Their readings tell the proof that the systems are ones, no two the same, and that the new codes come once.
        let _systems = self.book.len();
        new_codes_come_once();
        let demands = wanted_demands(self.alloc, &self.book, &self.kept, ids, cases)?;
        let (cells, units) = room_for(&self.book, ids);
        make_ready(engines, cells, units)?;
        let filled = keep_rows(
            rt,
            self.alloc,
            &mut self.kept,
            engines,
            &self.book,
            &demands,
            tally,
        );
        // Its reading tells the proof that the codes rise.
        let _rows = self.kept.rows();
        filled
    }

    /// The accepted configurations of a case with their rows, which are all here, and its economy.
    pub fn table(
        &self,
        ids: &[u64],
        lists: &[Listed<Config>],
        economy: Economy,
        limits: Listed<Limit>,
    ) -> Result<CaseTable, OutOfMemory>
        requires fit { FitBook self.now.book ids.now lists.now }
        requires economy { FitEconomy economy limits lists.now }
        requires filled { (key : Run) → IsAskedIn self.now.book ids.now lists.now key → Holds self.now key }
        ensures economy { IfOk result (λ table. table.economy ≡ economy) }
        ensures layers { IfOk result (λ table. IsTableBy self.now.book ids.now lists.now limits table) }
    {
        // Its reading tells the proof that no two systems are the same.
        let _systems = self.book.len();
        let demands = case_demands(self.alloc, &self.book, ids, lists)?;
        case_table(
            self.alloc,
            &self.kept,
            CaseJob::new(economy, limits, demands),
        )
    }
}
