//! Blocks that stay laid as their units.
ghost use Rattle.std.specs.Prelude.{◌≡◌, ℕ, ◌-◌, ◌<◌, ◌≤◌, [], length, map, slice_index, take, All, IfOk, IsTrue};
ghost use Rattle.sim_engine.specs.Loading.{cells_in};
ghost use Rattle.sim_engine.specs.Laid.{IsLaidOut, turn_of};

use crate::lay::{Mark, Span, lay_blocks};
use loading_order::{Block, Kind};
use sim_fast::Turn;
use std::alloc::Global;
use std::marker::Model;
use wasp_fixed::{M, OutOfMemory};

/// What stands in a room before a block, a unit or a mark is written there.
const NO_BLOCK: Block = Block {
    unit: 0,
    kind: Kind::Base,
    capacity: 0,
    cost: 0,
};

const NO_SPAN: Span = Span {
    unit: 0,
    least: 0,
    full: 0,
};

const NO_MARK: Mark = Mark {
    turn: 0,
    upper: false,
};

/// Whether some blocks are the same.
fn are_blocks(one: &[Block], other: &[Block]) -> bool
    ensures { IsTrue result → one.now ≡ other.now }
{
    if one.len() != other.len() {
        return false;
    }
    for k in 0..one.len() {
        if one[k] != other[k] {
            return false;
        }
    }
    true
}

/// Writes blocks into the beginning of a room.
fn copy_blocks(blocks: &[Block], room: &mut [Block])
    requires { length blocks.now ≤ length room.old }
    ensures { take (length blocks.now) room.new ≡ blocks.now }
{
    for k in 0..blocks.len() {
        room[k] = blocks[k];
    }
}

/// The outage rate of a unit, in parts of `M`.
fn rate_of(available: &[u64], unit: usize) -> u64
    requires { All (λ a. a ≤ M) available.now }
    ensures { result ≡ M - slice_index available.now unit }
{
    if unit < available.len() {
        M - available[unit]
    } else {
        M
    }
}

/// Writes units with their outage rates into the beginning of a room.
fn write_turns(spans: &[Span], available: &[u64], turns: &mut [Turn])
    requires available { All (λ a. a ≤ M) available.now }
    requires room { length spans.now ≤ length turns.old }
    ensures { take (length spans.now) turns.new ≡ map (turn_of available.now) spans.now }
{
    for k in 0..spans.len() {
        let span = spans[k];
        turns[k] = Turn {
            least: span.least,
            full: span.full,
            rate: rate_of(available, span.unit),
        };
    }
}

/// Blocks that are laid as their units, so that the periods and conditions of one configuration lay them once.
#[derive(Drop)]
pub struct Laying {
    /// The MW of a cell; 0 where no blocks are laid.
    step: u64,
    blocks: Vec<Block>,
    /// The blocks there are.
    end: usize,
    spans: Vec<Span>,
    /// The units there are.
    count: usize,
    marks: Vec<Mark>,
}

impl Model for Laying {
    ghost use Rattle.std.specs.Prelude.{◌≡◌, ◌<◌, ◌≤◌, length, take};
    ghost use Rattle.sim_engine.specs.Laid.{IsLaidOut, LayingView};

    ghost Value = { LayingView };

    ghost view = { λ l. record { step = l.step; blocks = take l.end l.blocks.items; spans = take l.count l.spans.items; marks = l.marks.items } };

    ghost invariant = { λ l. (l.end ≤ length l.blocks.items) × (l.count ≤ length l.spans.items) × (length l.spans.items ≡ length l.blocks.items) × (length l.marks.items ≡ length l.blocks.items) × (0 < l.step → IsLaidOut l.step (take l.end l.blocks.items) l.end (take l.count l.spans.items) l.marks.items) };
}

impl Laying {
    /// No blocks, with no room, which takes no memory.
    pub fn new(alloc: Global) -> Laying
        ensures { result.step ≡ 0 }
    {
        Laying {
            step: 0,
            blocks: Vec::new(alloc),
            end: 0,
            spans: Vec::new(alloc),
            count: 0,
            marks: Vec::new(alloc),
        }
    }

    /// No blocks, with room for `blocks` blocks. Errors: want of memory.
    pub fn with_room(alloc: Global, blocks: usize) -> Result<Laying, OutOfMemory>
        ensures { IfOk result (λ l. l.step ≡ 0) }
    {
        Ok(Laying {
            step: 0,
            blocks: vec![in alloc; NO_BLOCK; blocks]?,
            end: 0,
            spans: vec![in alloc; NO_SPAN; blocks]?,
            count: 0,
            marks: vec![in alloc; NO_MARK; blocks]?,
        })
    }

    /// Lays blocks, where they are not laid yet, and answers whether they are: not where there is no room, or where
    /// some unit's blocks are not loaded one after the other.
    pub fn lay(&mut self, blocks: &[Block], step: u64) -> bool
        requires step { 1 ≤ step }
        requires cells { cells_in step blocks.now ≤ 65536 }
        ensures step { IsTrue result → self.new.step ≡ step }
        ensures blocks { IsTrue result → self.new.blocks ≡ blocks.now }
    {
        if self.step == step && are_blocks(&self.blocks[..self.end], blocks) {
            return true;
        }
        self.step = 0;
        if blocks.len() > self.blocks.len() {
            return false;
        }
        let spans = self.spans.as_mut_slice();
        let Some(count) = lay_blocks(blocks, step, spans, self.marks.as_mut_slice()) else {
            return false;
        };
        copy_blocks(blocks, self.blocks.as_mut_slice());
        self.end = blocks.len();
        self.count = count;
        self.step = step;
        true
    }

    /// The number of units.
    pub fn len(&self) -> usize
        ensures { result ≡ length self.now.spans }
    {
        self.count
    }

    /// Where each block stands among the units.
    pub fn marks(&self) -> &[Mark]
        ensures value { result.now ≡ self.now.marks }
        ensures len { length self.now.blocks ≤ length self.now.marks }
        ensures laid { 0 < self.now.step → IsLaidOut self.now.step self.now.blocks (length self.now.blocks) self.now.spans self.now.marks }
    {
        self.marks.as_slice()
    }

    /// Writes the units with their outage rates, in parts of `M`, into the beginning of a room.
    pub fn write(&self, available: &[u64], turns: &mut [Turn])
        requires available { All (λ a. a ≤ M) available.now }
        requires room { length self.now.spans ≤ length turns.old }
        ensures { take (length self.now.spans) turns.new ≡ map (turn_of available.now) self.now.spans }
    {
        write_turns(&self.spans[..self.count], available, turns)
    }
}
