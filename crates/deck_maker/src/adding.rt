//! Statements behind those of a deck.
ghost use Rattle.std.specs.Prelude.{◌≡◌, ◌++◌, ◌∷◌, [], ◌+◌, ◌≤◌, length, IfOk, OnOk};
ghost use Rattle.deck_lines.specs.Statements.{IsStatement};
ghost use Rattle.deck_maker.specs.Order.{rank, reach};
ghost use Rattle.deck_maker.specs.TrialDeck.{named, unnamed};

use deck_lines::{Body, Deck, Head, Statement};
use std::alloc::Global;
use wasp_fixed::OutOfMemory;

/// A list of these numbers.
fn copied(alloc: Global, numbers: &[u64]) -> Result<Vec<u64>, OutOfMemory>
    ensures { IfOk result (λ v. v.items ≡ numbers.now) }
{
    let mut list = Vec::new(alloc);
    list.extend_from_slice(numbers)?;
    Ok(list)
}

/// A text of these bytes.
fn spelled(alloc: Global, name: &[u8]) -> Result<Vec<u8>, OutOfMemory>
    ensures { IfOk result (λ v. v.items ≡ name.now) }
{
    let mut text = Vec::new(alloc);
    text.extend_from_slice(name)?;
    Ok(text)
}

/// Adds the statement of this head, name and numbers, whose head comes behind all others.
#[tactic(auto, using(crate::proofs::Behind::put_behind, crate::proofs::Behind::reach_more))]
pub(crate) fn add_named(
    alloc: Global,
    deck: &mut Deck,
    head: Head,
    name: &[u8],
    numbers: &[u64],
) -> Result<(), OutOfMemory>
    requires short { length name.now ≤ 8 }
    requires form { IsStatement (named head name.now numbers.now) }
    requires behind { reach deck.old ≤ rank head }
    ensures added { OnOk result (deck.new ≡ deck.old ++ named head name.now numbers.now ∷ []) }
    ensures reach { OnOk result (reach deck.new ≡ rank head + 1) }
{
    let body = Body::new(spelled(alloc, name)?, copied(alloc, numbers)?);
    deck.set(Statement { head, body })?;
    Ok(())
}

/// Adds the statement of this head and these numbers, which has no name.
pub(crate) fn add(
    alloc: Global,
    deck: &mut Deck,
    head: Head,
    numbers: &[u64],
) -> Result<(), OutOfMemory>
    requires form { IsStatement (unnamed head numbers.now) }
    requires behind { reach deck.old ≤ rank head }
    ensures added { OnOk result (deck.new ≡ deck.old ++ unnamed head numbers.now ∷ []) }
    ensures reach { OnOk result (reach deck.new ≡ rank head + 1) }
{
    add_named(alloc, deck, head, &[], numbers)
}
