//! A statement of a deck.
use crate::body::Body;
use crate::head::Head;

/// What a line of a deck states: a head, which is the word with its index numbers, and the rest.
#[derive(Clone, Debug, Drop)]
pub struct Statement {
    pub head: Head,
    pub body: Body,
}
