//! A source and a sink in memory, which take and give pieces of a size and fail at numbered calls.
ghost use Rattle.std.specs.Prelude.{◌≡◌, ◌<◌, ◌≤◌, length, vec_len, vec_capacity};

use crate::{Given, Sink, Source, Taken};
use std::alloc::Global;
use wasp_fixed::OutOfMemory;

/// Bytes in memory, given in pieces of at most a chunk; the calls whose numbers, from 1, are in a list fail.
#[derive(Drop)]
pub struct MemSource {
    bytes: Vec<u8>,
    at: usize,
    chunk: usize,
    fails: Vec<u64>,
    calls: u64,
    faults: u64,
    over: bool,
    ghost in_range: { at ≤ vec_len bytes },
    ghost gives: { 0 < chunk },
    ghost clean: { length fails.items ≡ 0 → faults ≡ 0 },
}

impl MemSource {
    ghost use Rattle.std.specs.Prelude.{◌==◌, IfOk, Some, false};
    ghost use Rattle.wasp_io.specs.Memory.{bytes_left, failing_takes, take_chunk, takes_made};

    /// The bytes from their front on, at most `chunk` of them per call. `chunk` is not 0.
    pub fn new(
        alloc: Global,
        bytes: &[u8],
        chunk: usize,
        fails: &[u64],
    ) -> Result<MemSource, OutOfMemory>
        requires { 0 < chunk }
        ensures told { IfOk result (λ s. ⟦<MemSource as Source>⟧.left s ≡ Some bytes.now) }
        ensures faults { IfOk result (λ s. ⟦<MemSource as Source>⟧.faults s ≡ 0) }
        ensures open { IfOk result (λ s. ⟦<MemSource as Source>⟧.ended s ≡ false) }
        ensures sure { IfOk result (λ s. ⟦<MemSource as Source>⟧.sure s ≡ (length fails.now == 0)) }
        ensures left { IfOk result (λ s. bytes_left s ≡ bytes.now) }
        ensures chunk { IfOk result (λ s. take_chunk s ≡ chunk) }
        ensures fails { IfOk result (λ s. failing_takes s ≡ fails.now) }
        ensures calls { IfOk result (λ s. takes_made s ≡ 0) }
    {
        Ok(MemSource {
            bytes: Vec::from_slice(alloc, bytes)?,
            at: 0,
            chunk,
            fails: Vec::from_slice(alloc, fails)?,
            calls: 0,
            faults: 0,
            over: false,
        })
    }
}

impl Source for MemSource {
    ghost use Rattle.std.specs.Prelude.{◌↔◌, ◌==◌, ◌+◌, ◌-◌, ◌^◌, ℕ, Contains, Some, false, min, if◌then◌else◌};
    ghost use Rattle.std.specs.List.{list_any};
    ghost use Rattle.wasp_io.specs.Causes.{HasCause};
    ghost use Rattle.wasp_io.specs.Known.{IsTakenWithin, TakesFrom, is_over};
    ghost use Rattle.wasp_io.specs.Memory.{bytes_left, failing_takes, take_chunk, takes_made, source_is_sure};
    ghost use Rattle.wasp_io.specs.declared.source.Taken.TheVariants as taken;

    ghost left = { λ s. Some (bytes_left s) };

    ghost faults = { λ s. s.faults };

    ghost ended = { λ s. s.over };

    ghost sure = { λ s. length s.fails.items == 0 };

    ghost never_fails = { λ s h. source_is_sure s.fails.items s.faults s.clean h };

    fn take(&mut self, room: &mut [u8]) -> Taken
        requires not_empty { 0 < length room.old }
        requires open { self.old.over ≡ false }
        ensures within { IsTakenWithin room.new result }
        ensures bytes { TakesFrom (Some (bytes_left self.old)) (Some (bytes_left self.new)) room.new result }
        ensures cause { HasCause self.old.faults self.new.faults (result ≡ Taken.Failed) }
        ensures ended { self.new.over ≡ is_over result }
        ensures sure { (length (failing_takes self.new) == 0) ≡ (length (failing_takes self.old) == 0) }
        // A call fails exactly where its number is listed, and only such a call is counted.
        ensures numbered { takes_made self.new ≡ min (takes_made self.old + 1) (2 ^ 64 - 1) }
        ensures fails { (result ≡ Taken.Failed) ↔ Contains (failing_takes self.old) (takes_made self.new) }
        ensures counted { self.new.faults ≡ (if list_any (λ n. n == takes_made self.new) (failing_takes self.old) then min (self.old.faults + 1) (2 ^ 64 - 1) else self.old.faults) }
        // A call that does not fail gives as much as the chunk, the room and the bytes left allow.
        ensures amount { (n : ℕ) → result ≡ taken.Bytes n → n ≡ min (min (length room.old) (take_chunk self.old)) (length (bytes_left self.old)) }
        ensures list { failing_takes self.new ≡ failing_takes self.old }
        ensures chunk { take_chunk self.new ≡ take_chunk self.old }
    {
        self.calls = self.calls.saturating_add(1);
        if self.fails.contains(&self.calls) {
            self.faults = self.faults.saturating_add(1);
            self.over = true;
            return Taken::Failed;
        }
        let count = room.len().min(self.chunk).min(self.bytes.len() - self.at);
        if count == 0 {
            self.over = true;
            return Taken::End;
        }
        let end = self.at + count;
        room[..count].copy_from_slice(&self.bytes[self.at..end]);
        self.at = end;
        Taken::Bytes(count)
    }
}

/// Bytes in memory, taken in pieces of at most a chunk and up to a room; the calls whose numbers, from 1,
/// are in a list fail, and so does each call at a full room.
#[derive(Drop)]
pub struct MemSink {
    bytes: Vec<u8>,
    room: usize,
    chunk: usize,
    fails: Vec<u64>,
    calls: u64,
    faults: u64,
    broken: bool,
    ghost has_room: { room ≤ vec_capacity bytes },
    ghost fits: { vec_len bytes ≤ room },
    ghost takes: { 0 < chunk },
    ghost clean: { length fails.items ≡ 0 → vec_len bytes < room → faults ≡ 0 },
}

impl MemSink {
    ghost use Rattle.std.specs.Prelude.{◌==◌, [], None, Some, IfOk, false, if◌then◌else◌};
    ghost use Rattle.wasp_io.specs.Memory.{bytes_written, failing_puts, put_chunk, puts_made, sink_room};

    /// Room for `room` bytes, at most `chunk` of them per call. `chunk` is not 0.
    pub fn new(
        alloc: Global,
        room: usize,
        chunk: usize,
        fails: &[u64],
    ) -> Result<MemSink, OutOfMemory>
        requires { 0 < chunk }
        ensures told { IfOk result (λ s. ⟦<MemSink as Sink>⟧.written s ≡ Some []) }
        ensures faults { IfOk result (λ s. ⟦<MemSink as Sink>⟧.faults s ≡ 0) }
        ensures open { IfOk result (λ s. ⟦<MemSink as Sink>⟧.failed s ≡ false) }
        ensures sure_room { IfOk result (λ s. ⟦<MemSink as Sink>⟧.sure_room s ≡ (if length fails.now == 0 then Some room else None)) }
        ensures written { IfOk result (λ s. bytes_written s ≡ []) }
        ensures room { IfOk result (λ s. sink_room s ≡ room) }
        ensures chunk { IfOk result (λ s. put_chunk s ≡ chunk) }
        ensures fails { IfOk result (λ s. failing_puts s ≡ fails.now) }
        ensures calls { IfOk result (λ s. puts_made s ≡ 0) }
    {
        Ok(MemSink {
            bytes: Vec::with_capacity(alloc, room)?,
            room,
            chunk,
            fails: Vec::from_slice(alloc, fails)?,
            calls: 0,
            faults: 0,
            broken: false,
        })
    }

    /// What was written.
    pub fn bytes(&self) -> &[u8]
        ensures told { ⟦<MemSink as Sink>⟧.written self.now ≡ Some result.now }
        ensures written { result.now ≡ bytes_written self.now }
    {
        &self.bytes
    }
}

impl Sink for MemSink {
    ghost use Rattle.std.specs.Prelude.{◌↔◌, ◌⊎◌, ◌==◌, ◌+◌, ◌-◌, ◌^◌, ℕ, Contains, None, Some, false, min, if◌then◌else◌};
    ghost use Rattle.wasp_io.specs.Causes.{HasCause};
    ghost use Rattle.wasp_io.specs.Known.{IsGivenWithin, PutsTo, is_failed};
    ghost use Rattle.wasp_io.specs.Memory.{bytes_written, failing_puts, put_chunk, puts_made, sink_room, sink_is_sure};
    ghost use Rattle.wasp_io.specs.declared.sink.Given.TheVariants as given;

    ghost written = { λ s. Some (bytes_written s) };

    ghost faults = { λ s. s.faults };

    ghost failed = { λ s. s.broken };

    ghost sure_room = { λ s. if length s.fails.items == 0 then Some s.room else None };

    ghost within_room = { λ s r h. sink_is_sure s.fails.items s.room s.bytes s.faults s.clean r h };

    fn put(&mut self, piece: &[u8]) -> Given
        requires not_empty { 0 < length piece.now }
        requires open { self.old.broken ≡ false }
        ensures within { IsGivenWithin piece.now result }
        ensures bytes { PutsTo (Some (bytes_written self.old)) (Some (bytes_written self.new)) piece.now result }
        ensures cause { HasCause self.old.faults self.new.faults (result ≡ Given.Failed) }
        ensures failed { self.new.broken ≡ is_failed result }
        ensures sure_room { (if length (failing_puts self.new) == 0 then Some (sink_room self.new) else None) ≡ (if length (failing_puts self.old) == 0 then Some (sink_room self.old) else None) }
        // A call fails exactly where its number is listed or the room is full.
        ensures numbered { puts_made self.new ≡ min (puts_made self.old + 1) (2 ^ 64 - 1) }
        ensures fails { (result ≡ Given.Failed) ↔ (Contains (failing_puts self.old) (puts_made self.new) ⊎ (length (bytes_written self.old) ≡ sink_room self.old)) }
        // Only a call that fails is counted. One that does not takes as much as the chunk and the room allow.
        ensures amount { (n : ℕ) → result ≡ given.Wrote n → n ≡ min (min (length piece.now) (put_chunk self.old)) (sink_room self.old - length (bytes_written self.old)) }
        ensures counted { self.new.faults ≡ (if is_failed result then min (self.old.faults + 1) (2 ^ 64 - 1) else self.old.faults) }
        ensures list { failing_puts self.new ≡ failing_puts self.old }
        ensures chunk { put_chunk self.new ≡ put_chunk self.old }
        ensures room { sink_room self.new ≡ sink_room self.old }
    {
        self.calls = self.calls.saturating_add(1);
        if self.fails.contains(&self.calls) {
            self.faults = self.faults.saturating_add(1);
            self.broken = true;
            return Given::Failed;
        }
        if self.bytes.len() == self.room {
            self.faults = self.faults.saturating_add(1);
            self.broken = true;
            return Given::Failed;
        }
        let count = piece
            .len()
            .min(self.chunk)
            .min(self.room - self.bytes.len());
        self.bytes.extend_from_slice(&piece[..count]).unwrap();
        Given::Wrote(count)
    }
}
