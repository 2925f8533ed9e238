//! The slots and actors of a store, and what each event makes of them.
ghost use Rattle.std.specs.Prelude.{◌≡◌, ℕ, ◌+◌, ◌*◌, ◌<◌, ◌≤◌, ◌^◌, IfOk, OnOk, OnErr, IfErr, length, true, ◌&&◌, slice_index, slice_index_or, slice_set, ◌≢◌, take, [], ◌∷◌};
ghost use Rattle.board_core.specs.Events.{sees, takes, writes, learns, publishes, copy_of, spent, joined, newcomer};
ghost use Rattle.board_core.specs.Rows.{due_word, words_of};
ghost use Rattle.board_core.specs.Machine.{distance, path_seen, has_code, has_seen_other, is_empty_hand, has, has_seen, is_slot_in, all_written, written_of};

use crate::actor::Actor;
use crate::changes::{copy_of, fill, join_in, learn, mark, newcomer, see, take};
use crate::enabled::{distance, is_code, is_free, is_full_hand, is_in_hand, knows, path_seen, saw};
use crate::event::{Answer, Event};
use crate::row::KeptRow;
use crate::slot::Slot;
use std::alloc::Global;
use std::marker::Model;
use wasp_fixed::OutOfMemory;

/// Slots and actors in lists of their lengths. Contracts see a `Machine`, which `BoardState` keeps sound.
#[derive(Drop)]
pub(crate) struct Store {
    bits: u64,
    slots: Vec<Slot>,
    actors: Vec<Actor>,
    rows: Vec<KeptRow>,
    start: Vec<u64>,
    alloc: Global,
}

impl Model for Store {
    ghost use Rattle.board_core.specs.Machine.{Machine, IsShaped};

    ghost Value = { Machine };

    ghost view = { λ b. record { bits = b.bits; slots = b.slots.items; actors = b.actors.items; rows = b.rows.items; start = b.start.items } };

    ghost invariant = { λ b. IsShaped (record { bits = b.bits; slots = b.slots.items; actors = b.actors.items; rows = b.rows.items; start = b.start.items }) };
}

impl Store {
    ghost use Rattle.std.specs.Prelude.{IsTrue};
    ghost use Rattle.board_core.specs.Machine.{may_look, may_place, answer, after, IsShaped, IsSoundMachine};
    ghost use Rattle.board_core.specs.declared.event.Event.TheVariants.{LookCode, PlaceCode, WriteWord, Publish, LookState, ReadWord, Split, Join};

    /// A store with these slots, due rows and codes of the start, and one actor with the whole share.
    pub(crate) fn new(
        alloc: Global,
        bits: u64,
        slots: Vec<Slot>,
        due: &[KeptRow],
        start: Vec<u64>,
    ) -> Result<Store, OutOfMemory>
        requires { IsShaped (record { bits = bits; slots = slots.items; actors = []; rows = due.now; start = start.items }) }
        ensures { IfOk result (λ b. b ≡ record { bits = bits; slots = slots.items; actors = newcomer ∷ []; rows = due.now; start = start.items }) }
    {
        let rows = rows_in(alloc, due)?;
        let mut actors = Vec::new(alloc);
        actors.push(newcomer(alloc))?;
        Ok(Store {
            bits,
            slots,
            actors,
            rows,
            start,
            alloc,
        })
    }

    fn may_look(&self, actor: u64, slot: u64) -> bool
        ensures { result ≡ may_look self.now actor slot }
    {
        match self.actors.get(actor as usize) {
            Some(a) => a.living && slot < self.slots.len() as u64,
            None => false,
        }
    }

    fn look_code(&mut self, actor: u64, slot: u64) -> Result<Answer, OutOfMemory>
        ensures answer { IfOk result (λ a. a ≡ answer self.old (LookCode actor slot)) }
        ensures state { OnOk result (self.new ≡ after self.old (LookCode actor slot)) }
        ensures err { OnErr result (self.new ≡ self.old) }
    {
        if !self.may_look(actor, slot) {
            return Ok(Answer::NotEnabled);
        }
        let code = self.slots[slot as usize].code;
        if code != 0 {
            see(&mut self.actors[actor as usize], slot, code)?;
        }
        Ok(Answer::Seen(code))
    }

    fn may_place(&self, actor: u64, slot: u64, code: u64) -> bool
        ensures { result ≡ may_place self.now actor slot code }
    {
        let Some(a) = self.actors.get(actor as usize) else {
            return false;
        };
        if a.share == 0 || !is_free(&a.hand) {
            return false;
        }
        if slot >= self.slots.len() as u64 || !is_code(self.rows.as_slice(), code) {
            return false;
        }
        path_seen(self.bits, code, &a.seen, distance(self.bits, code, slot))
    }

    fn place_code(&mut self, actor: u64, slot: u64, code: u64) -> Result<Answer, OutOfMemory>
        ensures answer { IfOk result (λ a. a ≡ answer self.old (PlaceCode actor slot code)) }
        ensures state { OnOk result (self.new ≡ after self.old (PlaceCode actor slot code)) }
        ensures err { OnErr result (self.new ≡ self.old) }
    {
        if !self.may_place(actor, slot, code) {
            return Ok(Answer::NotEnabled);
        }
        let found = self.slots[slot as usize].code;
        if found == 0 {
            take(self.alloc, &mut self.actors[actor as usize], slot, code)?;
            self.slots[slot as usize].code = code;
        } else {
            see(&mut self.actors[actor as usize], slot, found)?;
        }
        Ok(Answer::Seen(found))
    }

    fn write_word(&mut self, actor: u64, slot: u64, at: u64) -> Result<Answer, OutOfMemory>
        ensures answer { IfOk result (λ a. a ≡ answer self.old (WriteWord actor slot at)) }
        ensures state { OnOk result (self.new ≡ after self.old (WriteWord actor slot at)) }
        ensures err { OnErr result (self.new ≡ self.old) }
    {
        if slot >= self.slots.len() as u64 || at >= 11 || actor >= self.actors.len() as u64 {
            return Ok(Answer::NotEnabled);
        }
        if !is_in_hand(&self.actors[actor as usize].hand, slot) {
            return Ok(Answer::NotEnabled);
        }
        let value = due_of(self.rows.as_slice(), self.slots[slot as usize].code, at);
        mark(&mut self.actors[actor as usize], slot, at)?;
        self.slots[slot as usize].words[at as usize] = value;
        Ok(Answer::Moved)
    }

    fn publish(&mut self, actor: u64, slot: u64) -> Result<Answer, OutOfMemory>
        ensures answer { IfOk result (λ a. a ≡ answer self.old (Publish actor slot)) }
        ensures state { OnOk result (self.new ≡ after self.old (Publish actor slot)) }
        ensures err { OnErr result (self.new ≡ self.old) }
    {
        if slot >= self.slots.len() as u64 || actor >= self.actors.len() as u64 {
            return Ok(Answer::NotEnabled);
        }
        if !is_full_hand(&self.actors[actor as usize].hand, slot) {
            return Ok(Answer::NotEnabled);
        }
        fill(&mut self.actors[actor as usize], slot)?;
        self.slots[slot as usize].filled = true;
        Ok(Answer::Moved)
    }

    fn look_state(&mut self, actor: u64, slot: u64) -> Result<Answer, OutOfMemory>
        ensures answer { IfOk result (λ a. a ≡ answer self.old (LookState actor slot)) }
        ensures state { OnOk result (self.new ≡ after self.old (LookState actor slot)) }
        ensures err { OnErr result (self.new ≡ self.old) }
    {
        if slot >= self.slots.len() as u64 || actor >= self.actors.len() as u64 {
            return Ok(Answer::NotEnabled);
        }
        if !self.actors[actor as usize].living || !saw(&self.actors[actor as usize].seen, slot) {
            return Ok(Answer::NotEnabled);
        }
        if !self.slots[slot as usize].filled {
            return Ok(Answer::Seen(0));
        }
        learn(&mut self.actors[actor as usize], slot)?;
        Ok(Answer::Seen(1))
    }

    fn read_word(&self, actor: u64, slot: u64, at: u64) -> Answer
        ensures answer { result ≡ answer self.now (ReadWord actor slot at) }
        ensures state { after self.now (ReadWord actor slot at) ≡ self.now }
    {
        if slot >= self.slots.len() as u64 || actor >= self.actors.len() as u64 || at >= 11 {
            return Answer::NotEnabled;
        }
        if !knows(&self.actors[actor as usize].known, slot) {
            return Answer::NotEnabled;
        }
        Answer::Seen(self.slots[slot as usize].words[at as usize])
    }

    #[tactic(auto, using(crate::proofs::Sets::set_front))]
    fn split(&mut self, actor: u64, part: u64) -> Result<Answer, OutOfMemory>
        ensures answer { IfOk result (λ a. a ≡ answer self.old (Split actor part)) }
        ensures state { OnOk result (self.new ≡ after self.old (Split actor part)) }
        ensures err { OnErr result (self.new ≡ self.old) }
    {
        if actor >= self.actors.len() as u64 || part == 0 {
            return Ok(Answer::NotEnabled);
        }
        let a = &self.actors[actor as usize];
        if !a.living || part >= a.share {
            return Ok(Answer::NotEnabled);
        }
        let other = copy_of(self.alloc, a, part)?;
        self.actors.push(other)?;
        self.actors[actor as usize].share -= part;
        Ok(Answer::Moved)
    }

    fn join(&mut self, actor: u64, other: u64) -> Result<Answer, OutOfMemory>
        requires { IsSoundMachine self.old }
        ensures answer { IfOk result (λ a. a ≡ answer self.old (Join actor other)) }
        ensures state { OnOk result (self.new ≡ after self.old (Join actor other)) }
        ensures err { OnErr result (self.new ≡ self.old) }
    {
        let count = self.actors.len() as u64;
        if actor >= count || other >= count || actor == other {
            return Ok(Answer::NotEnabled);
        }
        if !self.actors[actor as usize].living
            || !self.actors[other as usize].living
            || !is_free(&self.actors[other as usize].hand)
        {
            return Ok(Answer::NotEnabled);
        }
        join_in(
            self.alloc,
            self.actors.as_mut_slice(),
            actor as usize,
            other as usize,
        )?;
        Ok(Answer::Moved)
    }

    /// Takes one event.
    pub(crate) fn step(&mut self, event: &Event) -> Result<Answer, OutOfMemory>
        requires { IsSoundMachine self.old }
        ensures answer { IfOk result (λ a. a ≡ answer self.old event.now) }
        ensures state { OnOk result (self.new ≡ after self.old event.now) }
        ensures err { OnErr result (self.new ≡ self.old) }
    {
        match *event {
            Event::LookCode { actor, slot } => self.look_code(actor, slot),
            Event::PlaceCode { actor, slot, code } => self.place_code(actor, slot, code),
            Event::WriteWord { actor, slot, at } => self.write_word(actor, slot, at),
            Event::Publish { actor, slot } => self.publish(actor, slot),
            Event::LookState { actor, slot } => self.look_state(actor, slot),
            Event::ReadWord { actor, slot, at } => Ok(self.read_word(actor, slot, at)),
            Event::Split { actor, part } => self.split(actor, part),
            Event::Join { actor, other } => self.join(actor, other),
        }
    }
}

/// The row word that is due for a code.
fn due_of(rows: &[KeptRow], code: u64, at: u64) -> u64
    requires { at < 11 }
    ensures { result ≡ due_word rows.now code at }
{
    for r in rows {
        if code == r.code {
            return r.words.to_array()[at as usize];
        }
    }
    0
}

/// A copy of the rows.
fn rows_in(alloc: Global, rows: &[KeptRow]) -> Result<Vec<KeptRow>, OutOfMemory>
    ensures { IfOk result (λ v. v.items ≡ rows.now) }
{
    let mut all = Vec::new(alloc);
    for row in rows {
        all.push(*row)?;
    }
    Ok(all)
}
