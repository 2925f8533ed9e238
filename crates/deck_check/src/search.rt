//! The least numbers that meet a row, and the first row that is met.
ghost use Rattle.std.specs.Prelude.{◌≡◌, ◌≤◌, ◌<◌, ◌^◌, MatchOption, slice_get};
ghost use Rattle.deck_lines.specs.Deck.{body_of};
ghost use Rattle.deck_check.specs.DeckFault.{FaultsAreMet, FaultsAreSingle, HasNoFault, IsFaultOf, table};
ghost use Rattle.deck_check.specs.FaultTable.{IsLeastA, IsLeastB, IsLeastC};
ghost use Rattle.deck_check.specs.Order.{row_of};
ghost use Rattle.deck_check.specs.Readings.{Says};

use crate::fault::DeckFault;
use crate::table::{FaultRow, TABLE};
use deck_lines::Deck;

/// The numbers with which a row is met.
#[derive(Clone, Copy, Debug, PartialEq, Eq)]
pub struct Place {
    pub a: u64,
    pub b: u64,
    pub c: u64,
}

/// The least third number with which a row is met.
fn least_c(row: FaultRow, deck: &Deck, a: u64, b: u64) -> Option<u64>
    requires b { b ≤ ((row_of row (body_of deck.now)).b a).to }
    requires small_b { b < 2 ^ 62 }
    ensures { IsLeastC (row_of row (body_of deck.now)) a b result }
{
    let span = row.c_span(deck, a, b);
    for c in span.from..span.to + 1 {
        if row.holds(deck, a, b, c) {
            return Some(c);
        }
    }
    None
}

/// The least second and third number with which a row is met.

fn least_b(row: FaultRow, deck: &Deck, a: u64) -> Option<Place>
    requires { a ≤ (row_of row (body_of deck.now)).a.to }
    ensures { IsLeastB (row_of row (body_of deck.now)) a result }
{
    let span = row.b_span(deck, a);
    for b in span.from..span.to + 1 {
        match least_c(row, deck, a, b) {
            Some(c) => return Some(Place { a, b, c }),
            None => {}
        }
    }
    None
}

/// The least numbers with which a row is met.

fn least(row: FaultRow, deck: &Deck) -> Option<Place>
    ensures { IsLeastA (row_of row (body_of deck.now)) result }
{
    let span = row.a_span(deck);
    for a in span.from..span.to + 1 {
        match least_b(row, deck, a) {
            Some(place) => return Some(place),
            None => {}
        }
    }
    None
}

impl FaultRow {
    /// The fault of meeting this row.
    fn fault(self, place: Place) -> DeckFault
        ensures number { (d : Says) → result.number ≡ (row_of self d).number }
        ensures a { result.a ≡ place.a }
        ensures b { result.b ≡ place.b }
        ensures c { result.c ≡ place.c }
    {
        DeckFault {
            number: self.number(),
            a: place.a,
            b: place.b,
            c: place.c,
        }
    }
}

/// The row at a place of the table.
fn row_at(place: usize) -> FaultRow
    requires { place < 27 }
    ensures { (d : Says) → slice_get (table d) place ≡ Some (row_of result d) }
{
    TABLE[place]
}

/// The first row of the table that a deck meets, with its least numbers.
pub fn first_fault(deck: &Deck) -> Option<DeckFault>
    ensures { MatchOption result (HasNoFault (body_of deck.now)) (λ fault. IsFaultOf (body_of deck.now) fault) }
{
    for place in 0..TABLE.len() {
        let row = row_at(place);
        match least(row, deck) {
            Some(place) => return Some(row.fault(place)),
            None => {}
        }
    }
    None
}

/// A deck has one fault at most.
pub fn faults_are_single()
    ensures { FaultsAreSingle }
{}

/// A deck that has a fault meets a row.
pub fn faults_are_met()
    ensures { FaultsAreMet }
{}
