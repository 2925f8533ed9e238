//! The first of all ways that are offered, by cost, then by where they come from.
ghost use Rattle.std.specs.Prelude.{◌≡◌, ℕ, ◌+◌, ◌<◌, ◌≤◌, ◌^◌, [], IfOk, OnOk, length, slice_index_or, Some, None};
ghost use Rattle.best_plans.specs.Offers.{AreLow, AreOffers, IsPut, offer_at, ranked_at, reached_at};

use crate::ranked::Reached;
use std::alloc::{AllocError, Global};

/// A way of coming to where it is offered, by the place of what it comes from and its rank there.
#[derive(Clone, Copy)]
pub struct Offer {
    /// The cost of the whole way, in dollars.
    pub cost: u64,
    pub place: usize,
    pub rank: usize,
}

/// The place of the first offer that costs more, or the number of all.
fn place_of(kept: &[Offer], cost: u64) -> usize
    ensures within { result ≤ length kept.now }
    ensures below { (i : ℕ) → i < result → (offer_at kept.now i).cost ≤ cost }
    ensures above { result < length kept.now → cost < (offer_at kept.now result).cost }
{
    for i in 0..kept.len() {
        if kept[i].cost > cost {
            return i;
        }
    }
    kept.len()
}

/// Puts an offer behind all that cost no more, and keeps the first k.
fn put(kept: &mut Vec<Offer>, k: usize, offer: Offer) -> Result<(), AllocError>
    ensures { OnOk result (IsPut k offer kept.old.items kept.new.items) }
{
    let place = place_of(kept.as_slice(), offer.cost);
    kept.insert(place, offer)?;
    kept.truncate(k);
    Ok(())
}

/// Takes in the ways to one place.
fn offer_ways(
    kept: &mut Vec<Offer>,
    k: usize,
    place: usize,
    reached: &[Reached],
    added: &[Option<u64>],
) -> Result<(), AllocError>
    requires place { place < length reached.now }
    requires long { length added.now ≡ length reached.now }
    requires low { AreLow reached.now (10 ^ 18) }
    requires small { (i cost : ℕ) → slice_index_or added.now i None ≡ Some cost → cost ≤ 10 ^ 18 }
    requires kept { AreOffers k reached.now added.now place 0 kept.old.items }
    ensures { OnOk result (AreOffers k reached.now added.now (place + 1) 0 kept.new.items) }
{
    let Some(adds) = added[place] else {
        return Ok(());
    };
    let ways = reached[place].ways.as_slice();
    for rank in 0..ways.len() {
        let cost = ways[rank].total + adds;
        put(kept, k, Offer { cost, place, rank })?;
    }
    Ok(())
}

/// The first k of the ways to all places that are reached, each with what is added at its place; none where
/// nothing is added.
pub fn first_offers(
    alloc: Global,
    reached: &[Reached],
    added: &[Option<u64>],
    k: usize,
) -> Result<Vec<Offer>, AllocError>
    requires long { length added.now ≡ length reached.now }
    requires low { AreLow reached.now (10 ^ 18) }
    requires small { (i cost : ℕ) → slice_index_or added.now i None ≡ Some cost → cost ≤ 10 ^ 18 }
    ensures { IfOk result (λ kept. AreOffers k reached.now added.now (length reached.now) 0 kept.items) }
{
    let mut kept = Vec::new(alloc);
    for place in 0..reached.len() {
        offer_ways(&mut kept, k, place, reached, added)?;
    }
    Ok(kept)
}
