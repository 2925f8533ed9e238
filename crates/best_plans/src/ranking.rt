//! The k best plans.
ghost use Rattle.std.specs.Prelude.{◌≡◌, ◌≤◌, IfOk};
ghost use Rattle.best_plans.specs.Best.{FirstIsChosen, IsRanking, RankingsAreOne};

use crate::offers::first_offers;
use crate::ranked::Ranked;
use crate::reach::{last_ways, onward_ways};
use cost_terms::CaseTable;
use std::alloc::Global;
use wasp_fixed::OutOfMemory;

/// The first k of all admissible plans of all years, each with its cost: by cost, then by the last
/// configuration, then by the one before it, and so on backwards; fewer where there are fewer plans, and none
/// exactly where there is none. Two plans that end alike are two. The first is the chosen plan.
pub fn best(alloc: Global, table: &CaseTable, k: u64) -> Result<Vec<Ranked>, OutOfMemory>
    requires some { 1 ≤ k }
    requires few { k ≤ 10 }
    ensures ranking { IfOk result (λ plans. IsRanking table.now k plans.items) }
    ensures first { IfOk result (λ plans. FirstIsChosen table.now plans.items) }
{
    let reached = last_ways(alloc, table, k as usize)?;
    let nothing = vec![in alloc; Some(0); reached.len()]?;
    let offers = first_offers(alloc, &reached, &nothing, k as usize)?;
    Ok(onward_ways(alloc, &reached, &offers, &[])?)
}

/// A table has one ranking of k plans.
pub fn rankings_are_one()
    ensures { RankingsAreOne }
{}
