//! The machine that is sound.
ghost use Rattle.std.specs.Prelude.{◌≡◌, ◌≢◌, ◌↔◌, ℕ, ◌<◌, ◌≤◌, ◌^◌, IfOk, OnOk, OnErr, length, false};
ghost use Rattle.board_core.specs.declared.row.KeptRow.{KeptRow};
ghost use Rattle.board_core.specs.Lists.{IsIn, times};
ghost use Rattle.board_core.specs.Rows.{codes_of};

use crate::event::{Answer, Event};
use crate::lay::{codes_in, first_slots};
use crate::row::KeptRow;
use crate::store::Store;
use std::alloc::Global;
use std::marker::Model;
use wasp_fixed::OutOfMemory;

/// The state of a store: slots, actors, the due rows and the codes of the start, of which the last two never
/// change. Contracts see a `Machine`, and each state is sound.
#[derive(Drop)]
pub struct BoardState {
    store: Store,
}

impl Model for BoardState {
    ghost use Rattle.board_core.specs.Machine.{Machine, IsSoundMachine};

    ghost Value = { Machine };

    ghost view = { λ b. b.store };

    ghost invariant = { λ b. IsSoundMachine b.store };
}

impl BoardState {
    ghost use Rattle.board_core.specs.Start.{IsStart};
    ghost use Rattle.board_core.specs.Machine.{enabled, answer, after, machine_terms, IsSoundMachine};
    ghost use Rattle.board_core.specs.Happens.{Happens, moment, number};
    ghost use Rattle.board_core.specs.declared.event.Answer.TheVariants.{NotEnabled};

    /// A store of `2^bits` slots, bits from 1 to 24, over the codes of the due rows. The kept rows are placed in
    /// their order, each at the first free slot from its home, and are filled; the one actor has the whole share
    /// of 64 and knows nothing. It refuses only for want of memory.
    pub fn start(
        alloc: Global,
        bits: u64,
        kept: &[KeptRow],
        due: &[KeptRow],
    ) -> Result<BoardState, OutOfMemory>
        requires bits { (1 ≤ bits) × (bits ≤ 24) }
        requires room { length due.now < 2 ^ bits }
        requires codes { (r : KeptRow) → IsIn r due.now → r.code ≢ 0 }
        requires equal { (r q : KeptRow) → IsIn r due.now → IsIn q due.now → r.code ≡ q.code → r ≡ q }
        requires once { (x : ℕ) → times x (codes_of kept.now) ≤ 1 }
        requires due { (r : KeptRow) → IsIn r kept.now → IsIn r due.now }
        ensures start { IfOk result (IsStart bits kept.now due.now) }
        ensures sound { IfOk result IsSoundMachine }
    {
        let slots = first_slots(alloc, bits, kept, due)?;
        let start = codes_in(alloc, kept)?;
        let store = Store::new(alloc, bits, slots, due, start)?;
        Ok(BoardState { store })
    }

    /// Every state is sound.
    pub fn is_sound(&self)
        ensures { IsSoundMachine self.now }
    {
        let _store = &self.store;
    }

    /// Takes one event. It is `NotEnabled` exactly where the event is not enabled, and then nothing changes; nor
    /// does anything after want of memory.
    pub fn step(&mut self, event: &Event) -> Result<Answer, OutOfMemory>
        ensures answer { IfOk result (λ a. a ≡ answer self.old event.now) }
        ensures state { OnOk result (self.new ≡ after self.old event.now) }
        ensures err { OnErr result (self.new ≡ self.old) }
        ensures refused { IfOk result (λ a. (a ≡ NotEnabled) ↔ (enabled self.old event.now ≡ false)) }
        ensures happens { IfOk result (λ a. a ≢ NotEnabled → Happens (machine_terms self.old) event.now (number a) (moment self.old) (moment self.new)) }
        ensures unchanged { IfOk result (λ a. a ≡ NotEnabled → self.new ≡ self.old) }
        ensures sound { IsSoundMachine self.new }
    {
        self.store.step(event)
    }
}
