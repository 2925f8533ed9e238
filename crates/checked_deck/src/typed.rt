//! The check of a deck, and the deck that has no fault.
ghost use Rattle.std.specs.Prelude.{◌≡◌, ◌≤◌, ◌<◌, IfErr, IfOk, Err};
ghost use Rattle.deck_lines.specs.Deck.{body_of};
ghost use Rattle.deck_check.specs.DeckFault.{HasNoFault, IsFaultOf};
ghost use Rattle.deck_check.specs.Readings as says;
ghost use Rattle.checked_deck.specs.Systems as systems;
ghost use Rattle.checked_deck.specs.Economy.{costs};
ghost use Rattle.checked_deck.specs.TypedDeck.{IsTyped, limit, margin, name_of, tunnel};
ghost use Rattle.plant_data.specs.Tunnels.{IsTunnelOf};
ghost use Rattle.cost_terms.specs.CostData.{IsEconomy, greatest as candidate_counts};
ghost use Rattle.wasp_fixed.specs.declared.numbers.TheConstants.{ONE};
ghost use Rattle.year_system.specs.System.{IsSystem, greatest};

use crate::cases::{limit_of, margin_of, tunnel_of};
use crate::economy::economy_of;
use crate::error::CheckError;
use crate::names::{Name, PlantId};
use crate::parts::system_of;
use cost_terms::Economy;
use deck_check::{cases, first_fault, width, years};
use deck_lines::{Deck, Head};
use plant_data::{Limit, Margin, Tunnel};
use std::alloc::Global;
use std::marker::Model;
use wasp_fixed::OutOfMemory;
use year_system::YearSystem;

/// A deck that meets no row of the fault table, which contracts see as the list of its statements. Only
/// `check` makes one.
#[derive(Debug, Drop)]
pub struct TypedDeck {
    deck: Deck,
}

impl Model for TypedDeck {
    ghost use Rattle.std.specs.Prelude.{List};
    ghost use Rattle.deck_lines.specs.declared.statement.Statement.{Statement};
    ghost use Rattle.checked_deck.specs.TypedDeck.{IsTyped};

    ghost Value = { List Statement };

    ghost view = { λ t. t.deck };

    ghost invariant = { λ t. IsTyped t.deck };
}

/// Checks a deck against the fault table. A fault is of the first row that the deck meets, with its least
/// numbers, and comes exactly where the deck meets a row.
pub fn check(deck: &Deck) -> Result<TypedDeck, CheckError>
    ensures typed { IfOk result (λ typed. typed ≡ deck.now) }
    ensures faultless { IfOk result (λ typed. IsTyped typed) }
    ensures fault { (fault : _) → result ≡ Err (CheckError.Fault fault) → IsFaultOf (body_of deck.now) fault }
{
    match first_fault(deck) {
        Some(fault) => Err(CheckError::Fault(fault)),
        None => TypedDeck::of(deck),
    }
}

impl TypedDeck {
    /// The deck, which meets no row.
    fn of(deck: &Deck) -> Result<TypedDeck, CheckError>
        requires { HasNoFault (body_of deck.now) }
        ensures typed { IfOk result (λ typed. typed ≡ deck.now) }
        ensures faultless { IfOk result (λ typed. IsTyped typed) }
        ensures err { IfErr result (λ error. error ≡ CheckError.OutOfMemory) }
    {
        // Its reading tells the proof that the statements are in their form.
        let _years = deck.get(&Head::Years);
        match deck.copy() {
            Ok(deck) => Ok(TypedDeck { deck }),
            Err(OutOfMemory) => Err(CheckError::OutOfMemory),
        }
    }

    /// The number of years, 1 to 30.
    pub fn years(&self) -> u64
        ensures value { result ≡ says.years (body_of self.now) }
        ensures low { 1 ≤ result }
        ensures high { result ≤ 30 }
        ensures valid { IsTyped self.now }
    {
        years(&self.deck)
    }

    /// The number of cases, 1 to 8.
    pub fn cases(&self) -> u64
        ensures value { result ≡ says.cases (body_of self.now) }
        ensures low { 1 ≤ result }
        ensures high { result ≤ 8 }
        ensures valid { IsTyped self.now }
    {
        cases(&self.deck)
    }

    /// The number of candidates, 1 to 14.
    pub fn width(&self) -> usize
        ensures value { result ≡ says.width (body_of self.now) }
        ensures low { 1 ≤ result }
        ensures high { result ≤ 14 }
        ensures valid { IsTyped self.now }
    {
        width(&self.deck)
    }

    /// The physical system of a year, with the units that came and went up to it.
    pub fn system(&self, alloc: Global, year: u64) -> Result<YearSystem, OutOfMemory>
        requires low { 1 ≤ year }
        requires high { year ≤ says.years (body_of self.now) }
        ensures value { IfOk result (λ system. system ≡ systems.system (body_of self.now) year) }
        ensures width { IfOk result (λ system. greatest system ≡ says.greatest (body_of self.now)) }
        ensures is_system { IfOk result (λ system. IsSystem system) }
        ensures valid { IsTyped self.now }
    {
        system_of(alloc, &self.deck, year)
    }

    /// The data of the costs of the years.
    pub fn economy(&self, alloc: Global) -> Result<Economy, OutOfMemory>
        ensures value { IfOk result (λ economy. economy ≡ costs (body_of self.now)) }
        ensures width { IfOk result (λ economy. candidate_counts economy ≡ says.greatest (body_of self.now)) }
        ensures is_economy { IfOk result (λ economy. IsEconomy economy) }
        ensures valid { IsTyped self.now }
    {
        economy_of(alloc, &self.deck)
    }

    /// The tunnel of a case in a year: that of the greatest year up to it which has one. Its least counts
    /// with their widths are within the greatest counts.
    pub fn tunnel(&self, case: u64, year: u64) -> Tunnel
        requires case { 1 ≤ case }
        requires cases { case ≤ says.cases (body_of self.now) }
        requires year { 1 ≤ year }
        requires years { year ≤ says.years (body_of self.now) }
        ensures value { result ≡ tunnel (body_of self.now) case year }
        ensures fits { IsTunnelOf (says.greatest (body_of self.now)) result }
        ensures valid { IsTyped self.now }
    {
        tunnel_of(&self.deck, case, year)
    }

    /// The margins of a case in a year, in ten-thousandths of the peak, found as the tunnel is.
    pub fn margin(&self, case: u64, year: u64) -> Margin
        requires case { 1 ≤ case }
        requires cases { case ≤ says.cases (body_of self.now) }
        requires year { 1 ≤ year }
        requires years { year ≤ says.years (body_of self.now) }
        ensures value { result ≡ margin (body_of self.now) case year }
        ensures low { result.low ≤ 100000 }
        ensures high { result.high ≤ 100000 }
        ensures valid { IsTyped self.now }
    {
        margin_of(&self.deck, case, year)
    }

    /// The limits of a case in a year, in parts of `ONE`, found as the tunnel is.
    pub fn limit(&self, case: u64, year: u64) -> Limit
        requires case { 1 ≤ case }
        requires cases { case ≤ says.cases (body_of self.now) }
        requires year { 1 ≤ year }
        requires years { year ≤ says.years (body_of self.now) }
        ensures value { result ≡ limit (body_of self.now) case year }
        ensures worst { result.worst ≤ ONE }
        ensures average { result.average ≤ ONE }
        ensures valid { IsTyped self.now }
    {
        limit_of(&self.deck, case, year)
    }

    /// The name of a plant, a candidate or a group, and none exactly where it has no statement.
    pub fn plant_name(&self, id: PlantId) -> Option<Name>
        ensures value { result ≡ name_of (body_of self.now) id }
        ensures valid { IsTyped self.now }
    {
        match self.deck.get(&id.head()) {
            Some(body) => Some(Name::new(body.name())),
            None => None,
        }
    }
}
