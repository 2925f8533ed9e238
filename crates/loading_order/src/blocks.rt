//! The blocks of units in the order in which they are loaded.
ghost use Rattle.std.specs.Prelude.{◌≡◌, ℕ, ◌+◌, ◌*◌, ◌<◌, ◌≤◌, ◌++◌, length, take, drop, IsPermutation, IsSortedByKey, All};
ghost use Rattle.std.specs.Ordering.{nat_cmp};
ghost use Rattle.std.specs.Cmp.Lexicographic.{slice_cmp};
ghost use Rattle.plant_data.specs.Units.{HasDistinctUnits};
ghost use Rattle.loading_order.specs.LoadingOrder.{blocks_of, key, order_of, unit_blocks, BasesFirst, IsPriced, OnlyOrder, PeaksFollow};

use plant_data::{Rule, Unit};

/// The two parts of a unit.
#[derive(Clone, Copy, Debug, PartialEq, Eq)]
pub enum Kind {
    /// From nothing to the least load.
    Base,
    /// From the least load to the full capacity.
    Peak,
}

/// A part of a unit that is loaded as a whole.
#[derive(Clone, Copy, Debug, PartialEq, Eq)]
pub struct Block {
    /// The place of the block's unit among the units, from 0 on.
    pub unit: usize,
    /// Which part of the unit it is.
    pub kind: Kind,
    /// MW.
    pub capacity: u64,
    /// Thousandths of a cent per MWh.
    pub cost: u64,
}

/// What a block is sorted by: its band, cost, plant and unit number, and base before peak.
/// Under `BaseFirst` the peak blocks are a band of their own.
fn key(units: &[Unit], rule: Rule, block: &Block) -> [u64; 5]
    ensures { result ≡ key rule units.now block.now }
{
    let rank = match block.kind {
        Kind::Base => 0,
        Kind::Peak => 1,
    };
    let band = match rule {
        Rule::Merit => 0,
        Rule::BaseFirst => rank,
    };
    match units.get(block.unit) {
        Some(unit) => [band, block.cost, unit.plant, unit.unit, rank],
        None => [band, block.cost, 0, 0, rank],
    }
}

fn sort_blocks(units: &[Unit], rule: Rule, blocks: &mut [Block])
    ensures permutation { IsPermutation blocks.old blocks.new }
    ensures sorted { IsSortedByKey (key rule units.now) (slice_cmp nat_cmp) blocks.new }
{
    blocks.sort_unstable_by_key(
        |block: &Block| -> [u64; 5]
            ensures { result ≡ key rule units.entry.now block.now }
        { key(units, rule, block) },
    );
}

/// Writes the blocks of one unit from place `at` on, and answers where they end.
fn write_unit(place: usize, unit: &Unit, at: usize, room: &mut [Block]) -> usize
    requires priced { IsPriced unit.now }
    requires fits { at + 2 ≤ length room.old }
    ensures value { take result room.new ≡ take at room.old ++ unit_blocks place unit.now }
    ensures end { result ≡ at + length (unit_blocks place unit.now) }
    ensures rest { drop result room.new ≡ drop result room.old }
{
    let price = unit.domestic + unit.foreign;
    let base = unit.heat * price + 1000 * unit.variable;
    room[at] = Block {
        unit: place,
        kind: Kind::Base,
        capacity: unit.least,
        cost: base,
    };
    if unit.least < unit.full {
        let peak = unit.inc * price + 1000 * unit.variable;
        room[at + 1] = Block {
            unit: place,
            kind: Kind::Peak,
            capacity: unit.full - unit.least,
            cost: peak.max(base),
        };
        at + 2
    } else {
        at + 1
    }
}

/// Writes the blocks of all units, unit by unit, and answers how many there are.
fn write_blocks(units: &[Unit], room: &mut [Block]) -> usize
    requires priced { All IsPriced units.now }
    requires fits { 2 * length units.now ≤ length room.old }
    ensures value { take result room.new ≡ blocks_of units.now }
    ensures end { result ≡ length (blocks_of units.now) }
    ensures few { result ≤ 2 * length units.now }
    ensures rest { drop result room.new ≡ drop result room.old }
{
    let mut end = 0;
    for place in 0..units.len() {
        end = write_unit(place, &units[place], end, room);
    }
    end
}

/// Writes the blocks of all units to the front of `room`, in the order in which they are loaded,
/// and answers how many there are.
///
/// Each unit has a base block of its least load and, where its full capacity is greater, a peak
/// block of the difference. Under `Merit` all blocks stand by cost; under `BaseFirst` all base blocks
/// stand by cost, and after them all peak blocks. Blocks of equal cost stand by plant and unit number,
/// base before peak. What stands behind the blocks in `room` is left as it was.
///
/// A block costs its fuel and variable operation, as in the IAEA's Computer Manual Series No. 16:
/// `heat * (domestic + foreign) + 1000 * variable` thousandths of a cent per MWh for a base block, with
/// `inc` in place of `heat` for a peak block, or what the base block costs where that is greater.
/// `room` has two places per unit, and no two units share plant and unit number.
pub fn order(units: &[Unit], rule: Rule, room: &mut [Block]) -> usize
    requires priced { All IsPriced units.now }
    requires distinct { HasDistinctUnits units.now }
    requires fits { 2 * length units.now ≤ length room.old }
    ensures value { take result room.new ≡ order_of rule units.now }
    ensures end { result ≡ length (blocks_of units.now) }
    ensures few { result ≤ 2 * length units.now }
    ensures places { All (λ b. b.unit < length units.now) (take result room.new) }
    ensures permutation { IsPermutation (blocks_of units.now) (take result room.new) }
    ensures sorted { IsSortedByKey (key rule units.now) (slice_cmp nat_cmp) (take result room.new) }
    ensures peaks { PeaksFollow (take result room.new) }
    ensures bases { rule ≡ Rule.BaseFirst → BasesFirst (take result room.new) }
    ensures rest { drop result room.new ≡ drop result room.old }
{
    let end = write_blocks(units, room);
    sort_blocks(units, rule, &mut room[..end]);
    end
}

/// The loading order is the only list of all blocks, each once, that is sorted by the keys.
pub fn order_is_unique()
    ensures { OnlyOrder }
{}
