//! The candidates of a deck, thermal candidates first, and their greatest counts.
ghost use Rattle.std.specs.Prelude.{◌≡◌, ◌≤◌, ◌+◌, ◌^◌, ◌++◌, nat_lt, map, length, take, slice_index};
ghost use Rattle.deck_lines.specs.Deck.{body_of};
ghost use Rattle.deck_lines.specs.declared.head.Head.TheVariants as heads;
ghost use Rattle.year_system.specs.System.{size};
ghost use Rattle.deck_check.specs.Readings as spec;

use crate::plants::{GROUPS, THERMAL, greatest_units};
use crate::readings::{is_there, number};
use deck_lines::{Deck, Head};
use plant_data::MAX_WIDTH;

/// The greatest number of configurations that codes have room for.
const CONFIGS: u64 = 1 << 50;

/// Writes the greatest counts of the thermal candidates at the start of the room, and answers how many
/// there are.
#[tactic(auto, using(crate::proofs::Firsts::first_none, crate::proofs::Firsts::kept_more_yes, crate::proofs::Firsts::kept_more_no))]
fn write_thermal(deck: &Deck, room: &mut [u8]) -> usize
    requires { length room.old ≡ 14 }
    ensures value { take result room.new ≡ map (λ k. spec.number (body_of deck.now) (heads.Thermal k) 0) (spec.thermal_numbers (body_of deck.now)) }
    ensures few { result ≤ 12 }
{
    let mut at = 0;
    for k in 0..THERMAL {
        if is_there(deck, Head::Thermal(k + 1)) {
            room[at] = greatest_units(deck, k + 1) as u8;
            at += 1;
        }
    }
    at
}

/// Writes the greatest counts of the hydro groups from a place of the room on.
#[tactic(auto, using(crate::proofs::Firsts::first_none, crate::proofs::Firsts::kept_more_yes, crate::proofs::Firsts::kept_more_no))]
fn write_groups(deck: &Deck, from: usize, room: &mut [u8]) -> usize
    requires room { length room.old ≡ 14 }
    requires from { from ≤ 12 }
    ensures value { take result room.new ≡ take from room.old ++ map (λ g. spec.number (body_of deck.now) (heads.Hydro g) 1) (spec.group_numbers (body_of deck.now)) }
    ensures few { result ≤ 14 }
{
    let mut at = from;
    for g in 0..GROUPS {
        if is_there(deck, Head::Hydro(g + 1)) {
            room[at] = number(deck, Head::Hydro(g + 1), 1) as u8;
            at += 1;
        }
    }
    at
}

/// Writes the greatest counts of all candidates at the start of the room, and answers how many there are.
fn write_greatest(deck: &Deck, room: &mut [u8]) -> usize
    requires { length room.old ≡ 14 }
    ensures value { take result room.new ≡ spec.greatest (body_of deck.now) }
    ensures few { result ≤ 14 }
{
    let at = write_thermal(deck, room);
    write_groups(deck, at, room)
}

/// The number of candidates.
pub fn width(deck: &Deck) -> usize
    ensures value { result ≡ spec.width (body_of deck.now) }
    ensures few { result ≤ 14 }
{
    write_greatest(deck, &mut [0; MAX_WIDTH])
}

/// The greatest count of the candidate at a place, counted from 0, and 0 past the last.
pub fn greatest_at(deck: &Deck, place: usize) -> u64
    ensures { result ≡ slice_index (spec.greatest (body_of deck.now)) place }
{
    let mut room = [0; MAX_WIDTH];
    let width = write_greatest(deck, &mut room);
    if place < width {
        u64::from(room[place])
    } else {
        0
    }
}

/// Whether there are more configurations up to these counts than codes have room for.
#[tactic(auto, using(crate::proofs::Sizes::size_more, year_system::proofs::Radix::size_take))]
fn are_many(greatest: &[u8]) -> bool
    ensures { result ≡ nat_lt (2 ^ 50) (size greatest.now) }
{
    let mut size: u64 = 1;
    for count in greatest {
        size *= u64::from(*count) + 1;
        if size > CONFIGS {
            return true;
        }
    }
    false
}

/// Whether there are more configurations than codes have room for.
pub fn many_codes(deck: &Deck) -> bool
    ensures { result ≡ nat_lt (2 ^ 50) (size (spec.greatest (body_of deck.now))) }
{
    let mut room = [0; MAX_WIDTH];
    let width = write_greatest(deck, &mut room);
    are_many(&room[..width])
}
