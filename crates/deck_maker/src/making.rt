//! The deck of a seed, a number of years and a number of candidates.
ghost use Rattle.std.specs.Prelude.{◌≡◌, ◌≤◌, ◌+◌, ◌*◌, ◌∷◌, [], ◌++◌, IfOk, OnOk, map};
ghost use Rattle.deck_check.specs.Readings.{first};
ghost use Rattle.deck_maker.specs.Order.{reach};
ghost use Rattle.deck_maker.specs.TrialDeck as spec;

use crate::adding::{add, add_named};
use crate::stream::Stream;
use deck_lines::{Deck, Head};
use std::alloc::Global;
use wasp_fixed::OutOfMemory;

/// The digit of a number from 1 to 6, as a byte.
const DIGIT: u8 = b'0';

/// A deck of what stands in every trial deck, with its number of years.
#[tactic(auto, using(crate::proofs::Forms::years_form), unfolding(deck_lines::specs::Statements::is_statement))]
fn frame_deck(alloc: Global, years: u64) -> Result<Deck, OutOfMemory>
    requires years { (1 ≤ years) × (years ≤ 30) }
    ensures value { IfOk result (λ deck. deck ≡ spec.frame years) }
    ensures reach { IfOk result (λ deck. reach deck ≡ 6) }
{
    let mut deck = Deck::new(alloc);
    add(alloc, &mut deck, Head::Years, &[years])?;
    add(alloc, &mut deck, Head::Periods, &[2])?;
    add(alloc, &mut deck, Head::Rate, &[1000, 800])?;
    add(alloc, &mut deck, Head::Ens, &[100_000])?;
    add(alloc, &mut deck, Head::Conditions, &[6000, 4000])?;
    add(
        alloc,
        &mut deck,
        Head::Shape(1),
        &[0, 10_000, 5000, 8000, 10_000, 500],
    )?;
    Ok(deck)
}

/// The two fuels.
#[tactic(auto, using(crate::proofs::Forms::fuel_1_form, crate::proofs::Forms::fuel_2_form, std::proofs::Common::append_assoc))]
fn add_fuels(alloc: Global, deck: &mut Deck, stream: &mut Stream) -> Result<(), OutOfMemory>
    requires reach { reach deck.old ≡ 6 }
    requires drawn { stream.old.drawn ≡ 0 }
    ensures added { OnOk result (deck.new ≡ deck.old ++ spec.fuels stream.old.seed) }
    ensures reach { OnOk result (reach deck.new ≡ 103) }
    ensures stream { stream.new ≡ record stream.old { drawn = 2 } }
{
    let at_home = 300 + stream.draw(200);
    let abroad = 500 + stream.draw(300);
    add(alloc, deck, Head::Fuel(1), &[at_home, 0])?;
    add(alloc, deck, Head::Fuel(2), &[0, abroad])
}

/// Existing plant `p`.
fn add_plant(alloc: Global, deck: &mut Deck, stream: &mut Stream, p: u64) -> Result<(), OutOfMemory>
    requires plant { (1 ≤ p) × (p ≤ 6) }
    requires reach { reach deck.old ≤ 200 + p }
    requires drawn { stream.old.drawn ≡ spec.plant_place p }
    ensures added { OnOk result (deck.new ≡ deck.old ++ spec.plant stream.old.seed p ∷ []) }
    ensures reach { OnOk result (reach deck.new ≡ 201 + p) }
    ensures stream { stream.new ≡ record stream.old { drawn = stream.old.drawn + 5 } }
{
    let unit = stream.draw_machine(30);
    add_named(
        alloc,
        deck,
        Head::Plant(p),
        &[b'P', DIGIT + p as u8],
        &[
            1,
            unit.full / 2,
            unit.full,
            unit.heat,
            unit.heat - 200,
            unit.fuel,
            100,
            200,
            unit.outage,
            unit.repair,
        ],
    )
}

/// The six existing plants.
fn add_plants(alloc: Global, deck: &mut Deck, stream: &mut Stream) -> Result<(), OutOfMemory>
    requires reach { reach deck.old ≤ 201 }
    requires drawn { stream.old.drawn ≡ 2 }
    ensures added { OnOk result (deck.new ≡ deck.old ++ map (spec.plant stream.old.seed) (first 6)) }
    ensures reach { OnOk result (reach deck.new ≤ 207) }
    ensures stream { OnOk result (stream.new ≡ record stream.old { drawn = 32 }) }
{
    for i in 0..6u64 {
        add_plant(alloc, deck, stream, i + 1)?;
    }
    Ok(())
}

/// Thermal candidate `k`.
fn add_candidate(
    alloc: Global,
    deck: &mut Deck,
    stream: &mut Stream,
    k: u64,
) -> Result<(), OutOfMemory>
    requires candidate { (1 ≤ k) × (k ≤ 6) }
    requires reach { reach deck.old ≤ 300 + k }
    requires drawn { stream.old.drawn ≡ spec.thermal_place k }
    ensures added { OnOk result (deck.new ≡ deck.old ++ spec.thermal stream.old.seed k ∷ []) }
    ensures reach { OnOk result (reach deck.new ≡ 301 + k) }
    ensures stream { stream.new ≡ record stream.old { drawn = stream.old.drawn + 6 } }
{
    let unit = stream.draw_machine(40);
    let price = 600 + stream.draw(900);
    add_named(
        alloc,
        deck,
        Head::Thermal(k),
        &[b'T', DIGIT + k as u8],
        &[
            4,
            unit.full / 2,
            unit.full,
            unit.heat,
            unit.heat - 200,
            unit.fuel,
            100,
            200,
            unit.outage,
            unit.repair,
            price,
            price,
            10,
            25,
        ],
    )
}

/// The thermal candidates.
fn add_candidates(
    alloc: Global,
    deck: &mut Deck,
    stream: &mut Stream,
    candidates: u64,
) -> Result<(), OutOfMemory>
    requires candidates { candidates ≤ 6 }
    requires reach { reach deck.old ≤ 301 }
    requires drawn { stream.old.drawn ≡ 32 }
    ensures added { OnOk result (deck.new ≡ deck.old ++ map (spec.thermal stream.old.seed) (first candidates)) }
    ensures reach { OnOk result (reach deck.new ≤ 307) }
    ensures stream { OnOk result (stream.new ≡ record stream.old { drawn = 32 + 6 * candidates }) }
{
    for i in 0..candidates {
        add_candidate(alloc, deck, stream, i + 1)?;
    }
    Ok(())
}

/// What the river's project gives in period `m`.
#[tactic(auto, using(crate::proofs::Forms::water_form))]
fn add_water(
    alloc: Global,
    deck: &mut Deck,
    stream: &mut Stream,
    candidates: u64,
    m: u64,
) -> Result<(), OutOfMemory>
    requires candidates { candidates ≤ 6 }
    requires period { (1 ≤ m) × (m ≤ 2) }
    requires reach { reach deck.old ≤ 402 + m }
    requires drawn { stream.old.drawn ≡ spec.water_place candidates m }
    ensures added { OnOk result (deck.new ≡ deck.old ++ spec.water stream.old.seed candidates m ∷ []) }
    ensures reach { OnOk result (reach deck.new ≡ 403 + m) }
    ensures stream { stream.new ≡ record stream.old { drawn = stream.old.drawn + 2 } }
{
    let wet = 20_000 + stream.draw(20_000);
    let dry = 10_000 + stream.draw(10_000);
    add(
        alloc,
        deck,
        Head::Water(1, 1, m),
        &[10, 20, wet, 8, 20, dry],
    )
}

/// The river and its project, which stands.
#[tactic(auto, using(std::proofs::Common::append_assoc), unfolding(deck_lines::specs::Statements::is_statement))]
fn add_river(
    alloc: Global,
    deck: &mut Deck,
    stream: &mut Stream,
    candidates: u64,
) -> Result<(), OutOfMemory>
    requires candidates { candidates ≤ 6 }
    requires reach { reach deck.old ≤ 400 }
    requires drawn { stream.old.drawn ≡ 32 + 6 * candidates }
    ensures added { OnOk result (deck.new ≡ deck.old ++ spec.river stream.old.seed candidates) }
    ensures reach { OnOk result (reach deck.new ≡ 405) }
    ensures stream { OnOk result (stream.new ≡ record stream.old { drawn = 36 + 6 * candidates }) }
{
    add_named(alloc, deck, Head::Hydro(1), b"HYD", &[1, 0, 50])?;
    add(alloc, deck, Head::Project(1, 1), &[40, 0, 0, 50])?;
    add_water(alloc, deck, stream, candidates, 1)?;
    add_water(alloc, deck, stream, candidates, 2)?;
    Ok(())
}

/// The loads of year `t`.
#[tactic(auto, using(crate::proofs::Forms::load_form))]
fn add_load(
    alloc: Global,
    deck: &mut Deck,
    stream: &mut Stream,
    candidates: u64,
    t: u64,
) -> Result<(), OutOfMemory>
    requires candidates { candidates ≤ 6 }
    requires year { (1 ≤ t) × (t ≤ 30) }
    requires reach { reach deck.old ≤ 500 + t }
    requires drawn { stream.old.drawn ≡ spec.load_place candidates t }
    ensures added { OnOk result (deck.new ≡ deck.old ++ spec.load stream.old.seed candidates t ∷ []) }
    ensures reach { OnOk result (reach deck.new ≡ 501 + t) }
    ensures stream { stream.new ≡ record stream.old { drawn = stream.old.drawn + 2 } }
{
    let trend = 200 + 15 * (t - 1);
    let first = trend + stream.draw(20);
    let second = trend + stream.draw(20);
    add(alloc, deck, Head::Load(t), &[first, 1, second, 1])
}

/// The loads of every year.
fn add_loads(
    alloc: Global,
    deck: &mut Deck,
    stream: &mut Stream,
    candidates: u64,
    years: u64,
) -> Result<(), OutOfMemory>
    requires candidates { candidates ≤ 6 }
    requires years { years ≤ 30 }
    requires reach { reach deck.old ≤ 501 }
    requires drawn { stream.old.drawn ≡ 36 + 6 * candidates }
    ensures added { OnOk result (deck.new ≡ deck.old ++ map (spec.load stream.old.seed candidates) (first years)) }
    ensures reach { OnOk result (reach deck.new ≤ 531) }
{
    for i in 0..years {
        add_load(alloc, deck, stream, candidates, i + 1)?;
    }
    Ok(())
}

/// Margins and a risk that every configuration meets.
#[tactic(auto, using(std::proofs::Common::append_assoc), unfolding(deck_lines::specs::Statements::is_statement))]
fn add_limits(alloc: Global, deck: &mut Deck) -> Result<(), OutOfMemory>
    requires reach { reach deck.old ≤ 600 }
    ensures added { OnOk result (deck.new ≡ deck.old ++ spec.limits) }
    ensures reach { OnOk result (reach deck.new ≡ 602) }
{
    add(alloc, deck, Head::Margin(1, 1), &[0, 100_000])?;
    add(
        alloc,
        deck,
        Head::Lolp(1, 1),
        &[1_000_000_000, 1_000_000_000],
    )
}

/// A least count and the width 1 for each thermal candidate, and no choice for the river.
#[tactic(auto, using(crate::proofs::Growing::pairs_none, crate::proofs::Growing::pairs_more))]
fn tunnel_numbers(alloc: Global, candidates: u64, least: u64) -> Result<Vec<u64>, OutOfMemory>
    ensures { IfOk result (λ v. v.items ≡ spec.pairs least candidates ++ 0 ∷ 0 ∷ []) }
{
    let mut numbers = Vec::new(alloc);
    for i in 0..candidates {
        numbers.extend_from_slice(&[least, 1])?;
    }
    numbers.extend_from_slice(&[0, 0])?;
    Ok(numbers)
}

/// The tunnel of year `t`.
#[tactic(auto, using(crate::proofs::Forms::tunnel_form))]
fn add_tunnel(alloc: Global, deck: &mut Deck, candidates: u64, t: u64) -> Result<(), OutOfMemory>
    requires candidates { candidates ≤ 6 }
    requires year { (1 ≤ t) × (t ≤ 30) }
    requires reach { reach deck.old ≤ 700 + t }
    ensures added { OnOk result (deck.new ≡ deck.old ++ spec.tunnel candidates t ∷ []) }
    ensures reach { OnOk result (reach deck.new ≡ 701 + t) }
{
    let numbers = tunnel_numbers(alloc, candidates, (t - 1) / 8)?;
    add(alloc, deck, Head::Tunnel(1, t), &numbers)
}

/// The tunnels of every year.
fn add_tunnels(
    alloc: Global,
    deck: &mut Deck,
    candidates: u64,
    years: u64,
) -> Result<(), OutOfMemory>
    requires candidates { candidates ≤ 6 }
    requires years { years ≤ 30 }
    requires reach { reach deck.old ≤ 701 }
    ensures added { OnOk result (deck.new ≡ deck.old ++ map (spec.tunnel candidates) (first years)) }
{
    for i in 0..years {
        add_tunnel(alloc, deck, candidates, i + 1)?;
    }
    Ok(())
}

/// The trial deck of a seed, of 1 to 30 years and of 1 to 6 thermal candidates. The error is that memory is
/// wanting.
pub fn make_deck(alloc: Global, seed: u64, years: u64, candidates: u64) -> Result<Deck, OutOfMemory>
    requires years { (1 ≤ years) × (years ≤ 30) }
    requires candidates { (1 ≤ candidates) × (candidates ≤ 6) }
    ensures { IfOk result (λ deck. deck ≡ spec.trial seed years candidates) }
{
    let mut stream = Stream::new(seed);
    let mut deck = frame_deck(alloc, years)?;
    add_fuels(alloc, &mut deck, &mut stream)?;
    add_plants(alloc, &mut deck, &mut stream)?;
    add_candidates(alloc, &mut deck, &mut stream, candidates)?;
    add_river(alloc, &mut deck, &mut stream, candidates)?;
    add_loads(alloc, &mut deck, &mut stream, candidates, years)?;
    add_limits(alloc, &mut deck)?;
    add_tunnels(alloc, &mut deck, candidates, years)?;
    Ok(deck)
}
