//! What a deck says of a head, and the single statements.
ghost use Rattle.std.specs.Prelude.{◌≡◌, ◌≤◌, ◌<◌, ◌*◌, ℕ, IsTrue, length, slice_index, sum};
ghost use Rattle.deck_lines.specs.Deck.{IsDeck, body_of};
ghost use Rattle.deck_check.specs.Forms.{IsFilled, IsFormOf, bottom, form_of, kind_at, top};
ghost use Rattle.deck_check.specs.Readings as spec;

use deck_lines::{Deck, Head};

/// One condition with all the weight.
const WHOLE: &[u64] = &[10_000];

/// Whether a statement stands.
pub fn is_there(deck: &Deck, head: Head) -> bool
    ensures { result ≡ spec.is_there (body_of deck.now) head }
{
    deck.get(&head).is_some()
}

/// The numbers of a statement, none where it is absent.
#[tactic(auto, using(crate::proofs::Forms::form_is, crate::proofs::Forms::empty_form, crate::proofs::Forms::filled_is))]
pub fn numbers(deck: &Deck, head: Head) -> &[u64]
    ensures value { result.now ≡ spec.numbers (body_of deck.now) head }
    ensures in_form { IsFormOf head result.now }
    ensures filled { IsTrue (spec.is_there (body_of deck.now) head) → IsFilled head result.now }
{
    match deck.get(&head) {
        Some(body) => body.numbers(),
        None => &[],
    }
}

/// The number at a place of a list, and 0 past its end.
pub fn number_at(numbers: &[u64], place: usize) -> u64
    ensures { result ≡ slice_index numbers.now place }
{
    numbers.get(place).copied().unwrap_or(0)
}

/// The number at a place of a statement, counted from 0, and 0 where there is none.
pub fn number(deck: &Deck, head: Head, place: usize) -> u64
    ensures value { result ≡ spec.number (body_of deck.now) head place }
    ensures most { result ≤ top (kind_at (form_of head) place) }
{
    number_at(numbers(deck, head), place)
}

/// The first number of a statement, or what stands for it where it is absent.
#[tactic(auto, using(crate::proofs::Forms::form_is, crate::proofs::Forms::filled_is))]
fn number_or(deck: &Deck, head: Head, default: u64) -> u64
    ensures value { result ≡ spec.number_or (body_of deck.now) head default }
    ensures low { 0 < (form_of head).least * length (form_of head).group → bottom (kind_at (form_of head) 0) ≤ default → bottom (kind_at (form_of head) 0) ≤ result }
    ensures most { default ≤ top (kind_at (form_of head) 0) → result ≤ top (kind_at (form_of head) 0) }
{
    match deck.get(&head) {
        Some(body) => number_at(body.numbers(), 0),
        None => default,
    }
}

/// The number of years.
pub fn years(deck: &Deck) -> u64
    ensures value { result ≡ spec.years (body_of deck.now) }
    ensures most { result ≤ 30 }
{
    number(deck, Head::Years, 0)
}

/// The number of periods.
pub fn periods(deck: &Deck) -> u64
    ensures value { result ≡ spec.periods (body_of deck.now) }
    ensures most { result ≤ 12 }
{
    number(deck, Head::Periods, 0)
}

/// The number of cases.
pub fn cases(deck: &Deck) -> u64
    ensures value { result ≡ spec.cases (body_of deck.now) }
    ensures low { 1 ≤ result }
    ensures most { result ≤ 8 }
{
    number_or(deck, Head::Cases, 1)
}

/// The version of the rules.
pub fn version(deck: &Deck) -> u64
    ensures { result ≡ spec.version (body_of deck.now) }
{
    number_or(deck, Head::Version, 1)
}

/// The step of the grid in MW.
pub fn step(deck: &Deck) -> u64
    ensures value { result ≡ spec.step (body_of deck.now) }
    ensures low { 1 ≤ result }
    ensures most { result ≤ 20 }
{
    number_or(deck, Head::Grid, 1)
}

/// The weights of the hydro conditions, in ten-thousandths.
pub fn weights(deck: &Deck) -> &[u64]
    ensures value { result.now ≡ spec.weights (body_of deck.now) }
    ensures some { 1 ≤ length result.now }
    ensures few { length result.now ≤ 5 }
    ensures small { (i : ℕ) → slice_index result.now i ≤ 10000 }
{
    if is_there(deck, Head::Conditions) {
        numbers(deck, Head::Conditions)
    } else {
        WHOLE
    }
}

/// The sum of the weights.
pub fn weight(deck: &Deck) -> u64
    ensures value { result ≡ sum (spec.weights (body_of deck.now)) }
    ensures small { result ≤ 50000 }
{
    let mut total = 0;
    for weight in weights(deck) {
        total += *weight;
    }
    total
}
