//! The listed configurations of all cases and years, or the first case and year over a limit.
ghost use Rattle.std.specs.Prelude.{◌≡◌, ◌≤◌, All, IfOk, IsErrOf, length};
ghost use Rattle.deck_check.specs.Readings as says;
ghost use Rattle.deck_lines.specs.Deck.{body_of};
ghost use Rattle.plant_data.specs.Tunnels.{IsTunnelOf};
ghost use Rattle.report_text.specs.declared.refusals.Refusal.{Refusal as Refused};
ghost use Rattle.case_study.specs.Inner.{FitYears};
ghost use Rattle.case_study.specs.Listings.{AreTunnels, IsFirstOver, IsOf, IsOver, IsOverIn, deck_tunnels};
ghost use Rattle.case_study.specs.Studies.{AreCaseLists, AreSystems, AreYearLists, IsYearList, IsYearSystem};

use checked_deck::TypedDeck;
use plant_data::{Config, Listed, Tunnel};
use report_text::Refusal;
use row_shelf::CaseLists;
use std::alloc::Global;
use tunnel_configs::{ConfigsError, configs};
use wasp_fixed::OutOfMemory;
use year_system::YearSystem;

/// Why no configurations are listed.
#[derive(Debug, Drop)]
pub enum ListError {
    OutOfMemory,
    Over(Refusal),
}

/// The system of each year of a deck.
pub fn systems_of(alloc: Global, typed: &TypedDeck) -> Result<Vec<YearSystem>, OutOfMemory>
    ensures { IfOk result (λ systems. AreSystems (body_of typed.now) systems.items) }
{
    let mut systems = Vec::new(alloc);
    for k in 0..typed.years() {
        systems.push(typed.system(alloc, k + 1)?)?;
    }
    Ok(systems)
}

/// The deck's own tunnels of a case, one a year.
pub fn own_tunnels(alloc: Global, typed: &TypedDeck, case: u64) -> Result<Vec<Tunnel>, OutOfMemory>
    requires low { 1 ≤ case }
    requires high { case ≤ says.cases (body_of typed.now) }
    ensures own { IfOk result (λ tunnels. tunnels.items ≡ deck_tunnels (body_of typed.now) case) }
    ensures tunnels { IfOk result (λ tunnels. AreTunnels (body_of typed.now) tunnels.items) }
{
    let mut tunnels = Vec::new(alloc);
    for k in 0..typed.years() {
        tunnels.push(typed.tunnel(case, k + 1))?;
    }
    Ok(tunnels)
}

/// The listed configurations of a case and year under a tunnel, or the limit that they exceed.
fn list_year(
    alloc: Global,
    typed: &TypedDeck,
    system: &YearSystem,
    case: u64,
    year: u64,
    tunnel: &Tunnel,
) -> Result<Listed<Config>, ListError>
    requires is_of { IsOf (body_of typed.now) case year }
    requires system { IsYearSystem (body_of typed.now) year system.now }
    requires tunnel { IsTunnelOf (says.greatest (body_of typed.now)) tunnel.now }
    ensures list { IfOk result (λ configs. IsYearList (body_of typed.now) case year tunnel.now configs) }
    ensures over { (r : Refused) → IsErrOf result (ListError.Over r)
        → IsOver (body_of typed.now) case year tunnel.now r }
{
    let margin = typed.margin(case, year);
    match configs(alloc, system, tunnel, &margin) {
        Ok(configs) => Ok(Listed::new(configs)),
        Err(ConfigsError::OutOfMemory) => Err(ListError::OutOfMemory),
        Err(ConfigsError::TooWide(number)) => {
            Err(ListError::Over(Refusal::Wide { case, year, number }))
        }
        Err(ConfigsError::TooMany(number)) => {
            Err(ListError::Over(Refusal::Many { case, year, number }))
        }
    }
}

/// Those of each year of a case under tunnels, or the first year over a limit.
pub fn list_case(
    alloc: Global,
    typed: &TypedDeck,
    systems: &[YearSystem],
    case: u64,
    tunnels: &[Tunnel],
) -> Result<CaseLists, ListError>
    requires low { 1 ≤ case }
    requires high { case ≤ says.cases (body_of typed.now) }
    requires systems { AreSystems (body_of typed.now) systems.now }
    requires tunnels { AreTunnels (body_of typed.now) tunnels.now }
    ensures lists { IfOk result (λ lists. AreYearLists (body_of typed.now) case tunnels.now lists) }
    ensures fit { IfOk result (λ lists. FitYears (body_of typed.now) lists) }
    ensures over { (r : Refused) → IsErrOf result (ListError.Over r) → IsOverIn (body_of typed.now) case tunnels.now r }
{
    let mut lists = Vec::new(alloc);
    for k in 0..systems.len() {
        match list_year(alloc, typed, &systems[k], case, k as u64 + 1, &tunnels[k]) {
            Ok(list) => match lists.push(list) {
                Ok(()) => {}
                Err(_) => return Err(ListError::OutOfMemory),
            },
            Err(error) => return Err(error),
        }
    }
    Ok(Listed::new(lists))
}

/// Those of each case under the deck's own tunnels, or the first case and year over a limit.
pub fn list_cases(
    alloc: Global,
    typed: &TypedDeck,
    systems: &[YearSystem],
) -> Result<Vec<CaseLists>, ListError>
    requires systems { AreSystems (body_of typed.now) systems.now }
    ensures lists { IfOk result (λ lists. AreCaseLists (body_of typed.now) lists.items) }
    ensures fit { IfOk result (λ lists. All (FitYears (body_of typed.now)) lists.items) }
    ensures few { IfOk result (λ lists. length lists.items ≤ 8) }
    ensures over { (r : Refused) → IsErrOf result (ListError.Over r) → IsFirstOver (body_of typed.now) r }
{
    let mut lists = Vec::new(alloc);
    for c in 0..typed.cases() {
        match list_own(alloc, typed, systems, c + 1) {
            Ok(list) => match lists.push(list) {
                Ok(()) => {}
                Err(_) => return Err(ListError::OutOfMemory),
            },
            Err(error) => return Err(error),
        }
    }
    Ok(lists)
}

/// Those of each year of a case under the deck's own tunnels, or the first year over a limit.
fn list_own(
    alloc: Global,
    typed: &TypedDeck,
    systems: &[YearSystem],
    case: u64,
) -> Result<CaseLists, ListError>
    requires low { 1 ≤ case }
    requires high { case ≤ says.cases (body_of typed.now) }
    requires systems { AreSystems (body_of typed.now) systems.now }
    ensures lists { IfOk result (λ lists. AreYearLists (body_of typed.now) case
        (deck_tunnels (body_of typed.now) case) lists) }
    ensures fit { IfOk result (λ lists. FitYears (body_of typed.now) lists) }
    ensures over { (r : Refused) → IsErrOf result (ListError.Over r)
        → IsOverIn (body_of typed.now) case (deck_tunnels (body_of typed.now) case) r }
{
    match own_tunnels(alloc, typed, case) {
        Ok(tunnels) => list_case(alloc, typed, systems, case, &tunnels),
        Err(OutOfMemory) => Err(ListError::OutOfMemory),
    }
}
