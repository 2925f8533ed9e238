//! When an event is enabled: tests of what an actor has seen, knows and holds.
ghost use Rattle.std.specs.Prelude.{◌≡◌, ℕ, ◌<◌, ◌≤◌, ◌^◌, ◌&&◌};
ghost use Rattle.board_core.specs.Machine.{distance, path_seen, has_code, has_seen_other, is_empty_hand, has, has_seen, is_slot_in, all_written, written_of};

use crate::actor::Hand;
use crate::home::{home_of, slots_of};
use crate::row::KeptRow;
use std::collections::LinkedList;

/// How far the slot lies above the home of the code.
pub(crate) fn distance(bits: u64, code: u64, slot: u64) -> u64
    requires { (1 ≤ bits) × (bits ≤ 24) × (slot < 2 ^ bits) }
    ensures { result ≡ distance bits code slot }
{
    (slot + (slots_of(bits) - home_of(bits, code))) % slots_of(bits)
}

/// Whether the n slots from the home on were seen with other codes.
pub(crate) fn path_seen(bits: u64, code: u64, seen: &LinkedList<(u64, u64)>, n: u64) -> bool
    requires { (1 ≤ bits) × (bits ≤ 24) × (n ≤ 2 ^ bits) }
    ensures { result ≡ path_seen bits code seen.now n }
{
    let home = home_of(bits, code);
    let slots = slots_of(bits);
    let mut left = n;
    while left > 0 {
        left -= 1;
        let slot = (home + left) % slots;
        if !saw_other(seen, slot, code) {
            return false;
        }
    }
    true
}

/// Whether another code than this was seen in the slot.
pub(crate) fn saw_other(seen: &LinkedList<(u64, u64)>, slot: u64, code: u64) -> bool
    ensures { result ≡ has_seen_other code slot seen.now }
{
    seen.iter().any(|p| p.0 == slot && p.1 != code)
}

/// Whether it is one of the codes of the store.
pub(crate) fn is_code(rows: &[KeptRow], code: u64) -> bool
    ensures { result ≡ has_code code rows.now }
{
    rows.iter().any(|r| r.code == code)
}

/// Whether nothing is in hand.
pub(crate) fn is_free(hand: &Option<Hand>) -> bool
    ensures { result ≡ is_empty_hand hand.now }
{
    hand.is_none()
}

/// Whether some code was seen in the slot.
pub(crate) fn saw(seen: &LinkedList<(u64, u64)>, slot: u64) -> bool
    ensures { result ≡ has_seen slot seen.now }
{
    seen.iter().any(|p| p.0 == slot)
}

/// Whether the number is in the list.
pub(crate) fn knows(known: &LinkedList<u64>, slot: u64) -> bool
    ensures { result ≡ has slot known.now }
{
    known.iter().any(|s| *s == slot)
}

/// Whether this slot is in hand.
pub(crate) fn is_in_hand(hand: &Option<Hand>, slot: u64) -> bool
    ensures { result ≡ is_slot_in slot hand.now }
{
    match hand {
        Some(h) => h.slot == slot,
        None => false,
    }
}

/// Whether this slot is in hand and all its words are written.
pub(crate) fn is_full_hand(hand: &Option<Hand>, slot: u64) -> bool
    ensures { result ≡ (is_slot_in slot hand.now && all_written 11 (written_of hand.now)) }
{
    match hand {
        Some(h) => h.slot == slot && all_written(11, &h.written),
        None => false,
    }
}

/// Whether the numbers below n are all in the list.
pub(crate) fn all_written(n: u64, written: &LinkedList<u64>) -> bool
    ensures { result ≡ all_written n written.now }
{
    let mut left = n;
    while left > 0 {
        left -= 1;
        if !knows(written, left) {
            return false;
        }
    }
    true
}
