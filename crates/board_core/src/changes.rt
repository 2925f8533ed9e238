//! What an event changes in an actor.
ghost use Rattle.std.specs.Prelude.{◌≡◌, ◌≢◌, ℕ, ◌+◌, ◌<◌, ◌^◌, OnOk, OnErr, IfOk, IfErr, length, true, slice_index_or, slice_set};
ghost use Rattle.board_core.specs.Events.{sees, takes, writes, learns, publishes, copy_of, spent, joined, newcomer};
ghost use Rattle.board_core.specs.Machine.{is_slot_in, written_of};

use crate::actor::{Actor, Hand};
use std::alloc::Global;
use std::collections::LinkedList;
use std::mem::swap;
use wasp_fixed::OutOfMemory;

/// The actor sees a code in a slot.
pub(crate) fn see(actor: &mut Actor, slot: u64, code: u64) -> Result<(), OutOfMemory>
    ensures ok { OnOk result (actor.new ≡ sees actor.old slot code) }
    ensures err { OnErr result (actor.new ≡ actor.old) }
{
    actor.seen.push_front((slot, code))?;
    Ok(())
}

/// The actor takes a slot for a code.
pub(crate) fn take(
    alloc: Global,
    actor: &mut Actor,
    slot: u64,
    code: u64,
) -> Result<(), OutOfMemory>
    ensures ok { OnOk result (actor.new ≡ takes actor.old slot code) }
    ensures err { OnErr result (actor.new ≡ actor.old) }
{
    actor.seen.push_front((slot, code))?;
    if actor.made.push_back(slot).is_err() {
        actor.seen.pop_front();
        return Err(OutOfMemory);
    }
    actor.hand = Some(Hand {
        slot,
        written: LinkedList::new(alloc),
    });
    Ok(())
}

/// The actor marks a word of the slot in hand as written.
pub(crate) fn mark(actor: &mut Actor, slot: u64, at: u64) -> Result<(), OutOfMemory>
    requires { is_slot_in slot actor.old.hand ≡ true }
    ensures ok { OnOk result (actor.new ≡ writes actor.old slot (written_of actor.old.hand) at) }
    ensures err { OnErr result (actor.new ≡ actor.old) }
{
    let Some(Hand { slot, mut written }) = actor.hand.take() else {
        unreachable!()
    };
    let failed = written.push_front(at).is_err();
    actor.hand = Some(Hand { slot, written });
    if failed {
        return Err(OutOfMemory);
    }
    Ok(())
}

/// The actor learns that a slot is filled.
pub(crate) fn learn(actor: &mut Actor, slot: u64) -> Result<(), OutOfMemory>
    ensures ok { OnOk result (actor.new ≡ learns actor.old slot) }
    ensures err { OnErr result (actor.new ≡ actor.old) }
{
    actor.known.push_front(slot)?;
    Ok(())
}

/// The actor has filled the slot in hand.
pub(crate) fn fill(actor: &mut Actor, slot: u64) -> Result<(), OutOfMemory>
    ensures ok { OnOk result (actor.new ≡ publishes actor.old slot) }
    ensures err { OnErr result (actor.new ≡ actor.old) }
{
    learn(actor, slot)?;
    actor.hand = None;
    Ok(())
}

/// A new actor with this share, which has seen and knows the same.
pub(crate) fn copy_of(alloc: Global, actor: &Actor, part: u64) -> Result<Actor, OutOfMemory>
    ensures { IfOk result (λ a. a ≡ copy_of actor.now part) }
{
    Ok(Actor {
        living: true,
        share: part,
        seen: actor.seen.clone()?,
        known: actor.known.clone()?,
        made: LinkedList::new(alloc),
        hand: None,
    })
}

/// The one actor at the start.
pub(crate) fn newcomer(alloc: Global) -> Actor
    ensures { result ≡ newcomer }
{
    Actor {
        living: true,
        share: 64,
        seen: LinkedList::new(alloc),
        known: LinkedList::new(alloc),
        made: LinkedList::new(alloc),
        hand: None,
    }
}

/// An actor that lives no longer.
pub(crate) fn spent(alloc: Global) -> Actor
    ensures { result ≡ spent }
{
    Actor {
        living: false,
        share: 0,
        seen: LinkedList::new(alloc),
        known: LinkedList::new(alloc),
        made: LinkedList::new(alloc),
        hand: None,
    }
}

/// The actor takes in another, which comes back where it cannot.
pub(crate) fn absorb(actor: &mut Actor, theirs: Actor) -> Result<(), Actor>
    requires { actor.old.share + theirs.share < 2 ^ 64 }
    ensures ok { OnOk result (actor.new ≡ joined actor.old theirs) }
    ensures err { OnErr result (actor.new ≡ actor.old) }
    ensures back { IfErr result (λ a. a ≡ theirs) }
{
    if !fits(actor.seen.len(), theirs.seen.len())
        || !fits(actor.known.len(), theirs.known.len())
        || !fits(actor.made.len(), theirs.made.len())
    {
        return Err(theirs);
    }
    let Actor {
        living: _,
        share,
        mut seen,
        mut known,
        mut made,
        hand: _,
    } = theirs;
    let _ = actor.seen.append(&mut seen);
    let _ = actor.known.append(&mut known);
    let _ = actor.made.append(&mut made);
    actor.share += share;
    Ok(())
}

/// Whether two lists are one that memory can hold.
pub(crate) fn fits(a: usize, b: usize) -> bool
    requires { (a < 2 ^ 63) × (b < 2 ^ 63) }
    ensures { result ≡ true → a + b < 2 ^ 63 }
{
    a + b < 0x8000_0000_0000_0000
}

/// The actor at k takes in the one at j.
pub(crate) fn join_in(
    alloc: Global,
    actors: &mut [Actor],
    k: usize,
    j: usize,
) -> Result<(), OutOfMemory>
    requires places { (k < length actors.old) × (j < length actors.old) × (k ≢ j) }
    requires shares { (slice_index_or actors.old k spent).share + (slice_index_or actors.old j spent).share < 2 ^ 64 }
    ensures ok { OnOk result (actors.new ≡ slice_set (slice_set actors.old k (joined (slice_index_or actors.old k spent) (slice_index_or actors.old j spent))) j spent) }
    ensures err { OnErr result (actors.new ≡ actors.old) }
{
    let mut theirs = spent(alloc);
    swap(&mut actors[j], &mut theirs);
    match absorb(&mut actors[k], theirs) {
        Ok(()) => Ok(()),
        Err(mut back) => {
            swap(&mut actors[j], &mut back);
            Err(OutOfMemory)
        }
    }
}
