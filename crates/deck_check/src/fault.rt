//! Why a deck is refused.
/// A row of the fault table that a deck meets, by its number, 1 to 24 or 27 to 29, and the least numbers
/// with which it is met. A number that the row does not name is 0.
#[derive(Clone, Copy, Debug, PartialEq, Eq)]
pub struct DeckFault {
    pub number: u64,
    pub a: u64,
    pub b: u64,
    pub c: u64,
}
