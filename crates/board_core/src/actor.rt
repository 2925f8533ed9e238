//! What one actor knows and holds.
use std::collections::LinkedList;

/// The slot in hand, and the numbers of its row words that are written.
#[derive(Drop)]
pub struct Hand {
    pub slot: u64,
    pub written: LinkedList<u64>,
}

/// An actor of the store: what it knows, and what it has in hand. Codes stand in slots for good, so what it has
/// seen stays true.
#[derive(Drop)]
pub struct Actor {
    pub living: bool,
    /// Of 64 parts. All living actors have the whole between them.
    pub share: u64,
    /// Each slot whose code it has seen, with the code.
    pub seen: LinkedList<(u64, u64)>,
    /// The slots that it knows to be filled.
    pub known: LinkedList<u64>,
    /// The slots that it took for a code, in order, for the count of runs.
    pub made: LinkedList<u64>,
    pub hand: Option<Hand>,
}
