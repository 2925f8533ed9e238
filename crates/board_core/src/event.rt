//! What may happen, and what is answered.

/// One atomic step of an actor. An event whose actor, other or slot does not exist is not enabled.
#[derive(Clone, Copy)]
pub enum Event {
    /// A living actor looks at the code of a slot; a code other than 0 is seen.
    LookCode { actor: u64, slot: u64 },
    /// An actor with nothing in hand, which has seen the path of the code to the slot with other codes, puts the code
    /// there if the slot is free, and has it in hand; it sees the code that then stands there.
    PlaceCode { actor: u64, slot: u64, code: u64 },
    /// The due word at a place below 11 is written into the slot in hand.
    WriteWord { actor: u64, slot: u64, at: u64 },
    /// The slot in hand, whose eleven words are written, is filled, and is no longer in hand.
    Publish { actor: u64, slot: u64 },
    /// An actor that has seen the slot's code looks whether it is filled.
    LookState { actor: u64, slot: u64 },
    /// An actor reads the word at a place below 11 of a slot that it knows filled.
    ReadWord { actor: u64, slot: u64, at: u64 },
    /// An actor gives a part of its share, from 1 to all but 1, to a new actor, last, which has seen and knows the same.
    Split { actor: u64, part: u64 },
    /// A living actor takes in another, which has nothing in hand and lives no longer.
    Join { actor: u64, other: u64 },
}

/// What an event answers: the code, the state, 0 or 1, or the word that was found, for `PlaceCode` the code that
/// stood there, 0 where the slot was free.
#[derive(Clone, Copy)]
pub enum Answer {
    NotEnabled,
    Seen(u64),
    Moved,
}
