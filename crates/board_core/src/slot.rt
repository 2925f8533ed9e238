//! What one slot holds.

/// A slot: a code, 0 where it is free, a mark whether it is filled, and eleven row words.
#[derive(Clone, Copy)]
pub struct Slot {
    pub code: u64,
    pub filled: bool,
    pub words: [u64; 11],
}
