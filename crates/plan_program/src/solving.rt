//! The solution of a case's table.
ghost use Rattle.std.specs.Prelude.{◌≡◌, ℕ, ◌+◌, ◌-◌, ◌<◌, ◌≤◌, ◌↔◌, IfOk, IfSome, IsTrue, [], None, length, slice_index_or};
ghost use Rattle.cost_terms.specs.Table.{IsTable};
ghost use Rattle.plan_program.specs.Chosen.{IsOutcome};
ghost use Rattle.plan_program.specs.CostToCome.{AreCostsToCome, AreSmall};
ghost use Rattle.plan_program.specs.Steps.{AreWayCosts, HasNumber, IsLeastPlace, IsLess, IsUnreached};

use crate::come::costs_to_come;
use crate::solved::{Outcome, Solved};
use crate::trace::{costs_of, push_best};
use cost_terms::CaseTable;
use plant_data::Listed;
use std::alloc::{AllocError, Global};
use wasp_fixed::OutOfMemory;

/// Whether an entry of a year has a cost-to-come.
fn has_number(come: &[Option<u64>]) -> bool
    ensures { IsTrue result ↔ HasNumber come.now }
{
    for cost in come {
        if cost.is_some() {
            return true;
        }
    }
    false
}

/// The first year, counted from 0, none of whose entries has a cost-to-come.
fn first_unreached(come: &[Listed<Option<u64>>]) -> Option<usize>
    ensures some { IfSome result (λ year. IsUnreached come.now year) }
    ensures none { result ≡ None → (k : ℕ) → k < length come.now → HasNumber (slice_index_or come.now k []) }
{
    for k in 0..come.len() {
        if !has_number(come[k].as_slice()) {
            return Some(k);
        }
    }
    None
}

/// Whether a cost is there, and below the least so far.
fn is_less(cost: Option<u64>, least: Option<u64>) -> bool
    ensures { IsTrue result ↔ IsLess cost least }
{
    match (cost, least) {
        (Some(one), Some(other)) => one < other,
        (Some(_), None) => true,
        (None, _) => false,
    }
}

/// The place of the lesser of two costs-to-come, the first place on a tie.
fn lesser_place(come: &[Option<u64>], place: usize, other: usize) -> usize
    requires place { place < length come.now }
    requires other { other < length come.now }
    ensures within { result < length come.now }
    ensures less { IsLess (slice_index_or come.now other None) (slice_index_or come.now place None) → result ≡ other }
    ensures same { (IsLess (slice_index_or come.now other None) (slice_index_or come.now place None) → ⊥) → result ≡ place }
{
    if is_less(come[other], come[place]) {
        return other;
    }
    place
}

/// The place of the least cost-to-come of a year, the first of these.
fn least_place(come: &[Option<u64>]) -> usize
    requires { HasNumber come.now }
    ensures { (cost : ℕ) × IsLeastPlace come.now (length come.now) result cost }
{
    let mut place = 0;
    for i in 0..come.len() {
        place = lesser_place(come, place, i);
    }
    place
}

/// The chosen plan by the costs-to-come, or the first year that no plan reaches.
fn outcome_of(
    alloc: Global,
    table: &CaseTable,
    come: &[Listed<Option<u64>>],
) -> Result<Outcome, AllocError>
    requires come { AreWayCosts table.now (length table.now.layers) come.now }
    requires valid { IsTable table.now }
    ensures { IfOk result (λ outcome. IsOutcome table.now outcome) }
{
    if let Some(year) = first_unreached(come) {
        return Ok(Outcome::Infeasible(year as u64 + 1));
    }
    let last = come.len() - 1;
    let costs = costs_of(come, last);
    let place = least_place(costs);
    let Some(total) = costs[place] else {
        unreachable!()
    };
    let mut configs = Vec::new(alloc);
    push_best(table, come, last, place, &mut configs)?;
    Ok(Outcome::Plan {
        configs: Listed::new(configs),
        total,
    })
}

#[tactic(auto, using(crate::proofs::Best::come_is))]
/// The costs-to-come of a case and its chosen plan: the least-cost admissible plan of all years, among equals
/// the one with the least last configuration, then the least before it, and so on backwards; or the first
/// year that no admissible plan reaches.
pub fn solve(alloc: Global, table: &CaseTable) -> Result<Solved, OutOfMemory>
    ensures come { IfOk result (λ s. AreCostsToCome table.now s.come) }
    ensures outcome { IfOk result (λ s. IsOutcome table.now s.outcome) }
    ensures small { IfOk result (λ s. AreSmall s.come) }
{
    let come = costs_to_come(alloc, table)?;
    let outcome = outcome_of(alloc, table, come.as_slice())?;
    Ok(Solved { come, outcome })
}
