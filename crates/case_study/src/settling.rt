//! The table of a case.
ghost use Rattle.std.specs.Prelude.{◌≡◌, ◌≤◌, IfOk};
ghost use Rattle.cost_terms.specs.CostData.{greatest as candidate_counts};
ghost use Rattle.deck_check.specs.Readings as says;
ghost use Rattle.deck_lines.specs.Deck.{body_of};
ghost use Rattle.case_study.specs.Case.{IsTableOf};
ghost use Rattle.case_study.specs.Inner.{AreLimits};
ghost use Rattle.case_study.specs.Studies.{IsOn};

use crate::study::Study;
use checked_deck::TypedDeck;
use cost_terms::CaseTable;
use plant_data::{Limit, Listed};
use row_shelf::Shelf;
use std::alloc::Global;
use wasp_fixed::OutOfMemory;

/// The limits of each year of a case.
fn limits_of(alloc: Global, typed: &TypedDeck, case: u64) -> Result<Listed<Limit>, OutOfMemory>
    requires low { 1 ≤ case }
    requires high { case ≤ says.cases (body_of typed.now) }
    ensures { IfOk result (λ limits. AreLimits (body_of typed.now) case limits) }
{
    let mut limits = Vec::new(alloc);
    for k in 0..typed.years() {
        limits.push(typed.limit(case, k + 1))?;
    }
    Ok(Listed::new(limits))
}

/// The table of a case by the rows on the shelf: its accepted configurations. Nothing is planned.
pub fn table_of(alloc: Global, study: &Study, shelf: &Shelf) -> Result<CaseTable, OutOfMemory>
    requires on { IsOn shelf.now study.now }
    ensures table { IfOk result (λ table. IsTableOf (body_of study.now.deck) study.now.case study.now.tunnels table) }
    ensures width { IfOk result (λ table. candidate_counts table.economy ≡ says.greatest (body_of study.now.deck)) }
{
    let typed = study.typed();
    let limits = limits_of(alloc, typed, study.case())?;
    let economy = typed.economy(alloc)?;
    shelf.table(study.ids(), study.lists(), economy, limits)
}
