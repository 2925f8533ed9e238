//! The verdict on a certificate.
ghost use Rattle.std.specs.Prelude.{◌≡◌, ◌≢◌, ℕ, ◌+◌, ◌*◌, ◌^◌, ◌<◌, ◌≤◌, ◌↔◌, All, IfSome, IsTrue, List, None, Some, length};
ghost use Rattle.plant_data.specs.Configs.{IsAtMost};
ghost use Rattle.cost_terms.specs.CostData.{Fits, greatest};
ghost use Rattle.cost_terms.specs.Table.{IsTable};
ghost use Rattle.plan_program.specs.Plans.{configs, entry_at, layer_at};
ghost use Rattle.plan_certificate.specs.Certificate.{AreBounds, Costs, First, HasPlanOver, IsAccepted, IsAtMostLast, IsCertificate, IsClaim, IsNoneIn, IsVerdict, IsVerdictOn, IsYes, NamesAccepted, NoneAfterNone, named_in};
ghost use Rattle.plan_certificate.specs.Steps.{AreAligned, IsCostOf, StepsTo, WalksTo, name_at, names_of};
ghost use Rattle.plan_certificate.specs.Truth.{IsTrueOf};
ghost use Rattle.plan_certificate.specs.declared.judging.Verdict.TheVariants.{Yes};

use crate::certificate::{Certificate, Named};
use crate::steps::{Rule, layer_of, rule_holds};
use cost_terms::{CaseTable, Scored, step_cost};
use plan_program::Outcome;
use plant_data::Config;

/// What is said of a certificate.
#[derive(Clone, Copy, Debug, PartialEq, Eq)]
pub enum Verdict {
    /// All conditions hold.
    Yes,
    /// The number of the first condition that fails, 1 to 7.
    No(u64),
}

/// Whether two configurations are the same.
fn is_same(config: &Config, other: &Config) -> bool
    ensures { IsTrue result ↔ (config.now ≡ other.now) }
{
    config == other
}

/// Whether those named in a year are the entries of its layer, in the same order.
fn same_names(layer: &[Scored], names: &[Named]) -> bool
    ensures { IsTrue result ↔ (names_of names.now ≡ configs layer.now) }
{
    if names.len() != layer.len() {
        return false;
    }
    for i in 0..layer.len() {
        if !is_same(&names[i].config, &layer[i].config) {
            return false;
        }
    }
    true
}

/// Whether the accepted configurations of all years are named, and no other.
fn names_accepted(table: &CaseTable, certificate: &Certificate) -> bool
    requires years { certificate.now.years ≡ length table.now.layers }
    requires valid { IsCertificate certificate.now }
    ensures valid { IsTable table.now }
    ensures named { IsTrue result ↔ NamesAccepted table.now certificate.now }
    ensures aligned { IsTrue result → AreAligned table.now certificate.now }
{
    for year in 0..table.layers().len() {
        if !same_names(layer_of(table, year), certificate.named(year)) {
            return false;
        }
    }
    true
}

/// The place of a configuration in a year's layer.
fn place_of(layer: &[Scored], config: &Config) -> Option<usize>
    ensures some { IfSome result (λ i. (i < length layer.now) × ((entry_at layer.now i).config ≡ config.now)) }
    ensures none { result ≡ None → (i : ℕ) → i < length layer.now → (entry_at layer.now i).config ≢ config.now }
{
    for i in 0..layer.len() {
        if layer[i].config == *config {
            return Some(i);
        }
    }
    None
}

/// The cost of a plan's year, counted from 0, where its configuration is accepted and no count falls.
fn step_to(table: &CaseTable, year: usize, before: &Config, config: &Config) -> Option<u64>
    requires year { year < length table.now.layers }
    requires before { Fits table.now.economy before.now }
    ensures some { IfSome result (λ cost. StepsTo table.now year before.now config.now cost) }
    ensures small { IfSome result (λ cost. cost ≤ 2 * 10 ^ 16) }
    ensures none { result ≡ None → IsAccepted table.now year config.now → IsAtMost before.now config.now → ⊥ }
    ensures fits { IfSome result (λ cost. Fits table.now.economy config.now) }
{
    let layer = layer_of(table, year);
    let entry = &layer[place_of(layer, config)?];
    if !before.at_most(&entry.config) {
        return None;
    }
    Some(step_cost(table.economy(), year as u64 + 1, before, entry))
}

/// The cost of the plan of these configurations, where they are an admissible plan.
fn cost_of(table: &CaseTable, chosen: &[Config]) -> Option<u64>
    requires { length chosen.now ≡ length table.now.layers }
    ensures some { IfSome result (λ cost. IsCostOf table.now chosen.now cost) }
    ensures none { result ≡ None → HasPlanOver table.now chosen.now → ⊥ }
{
    let mut before = table.economy().nothing_built();
    let mut cost = 0;
    for year in 0..chosen.len() {
        let config = &chosen[year];
        cost += step_to(table, year, &before, config)?;
        before = *config;
    }
    Some(cost)
}

/// Whether each numbered entry is at least the total.
fn is_at_most_all(names: &[Named], total: u64) -> bool
    ensures { IsTrue result ↔ ((i value : ℕ) → i < length names.now → (name_at names.now i).value ≡ Some value → total ≤ value) }
{
    for name in names {
        if let Some(value) = name.value {
            if value < total {
                return false;
            }
        }
    }
    true
}

/// Whether each entry is none.
fn are_none(names: &[Named]) -> bool
    ensures { IsTrue result ↔ ((i : ℕ) → i < length names.now → (name_at names.now i).value ≡ None) }
{
    for name in names {
        if name.value.is_some() {
            return false;
        }
    }
    true
}

/// The verdict on the claim of a plan.
fn judge_plan(
    table: &CaseTable,
    certificate: &Certificate,
    chosen: &[Config],
    total: u64,
) -> Verdict
    requires years { certificate.now.years ≡ length table.now.layers }
    requires valid { IsCertificate certificate.now }
    requires long { length chosen.now ≡ length table.now.layers }
    ensures { First 4 (HasPlanOver table.now chosen.now) (First 5 (Costs table.now chosen.now total) (First 6 (IsAtMostLast certificate.now total) IsYes)) result }
{
    let Some(cost) = cost_of(table, chosen) else {
        return Verdict::No(4);
    };
    if cost != total {
        return Verdict::No(5);
    }
    let last = certificate.named(certificate.years() as usize - 1);
    if !is_at_most_all(last, total) {
        return Verdict::No(6);
    }
    Verdict::Yes
}

/// The verdict on the claim that a year, counted from 1, has no plan.
fn judge_infeasible(certificate: &Certificate, year: u64) -> Verdict
    requires first { 1 ≤ year }
    requires last { year ≤ certificate.now.years }
    ensures { First 7 (IsNoneIn certificate.now year) IsYes result }
{
    if !are_none(certificate.named((year - 1) as usize)) {
        return Verdict::No(7);
    }
    Verdict::Yes
}

/// The verdict on a claim, where the conditions on entries hold.
fn judge_claim(table: &CaseTable, certificate: &Certificate, claim: &Outcome) -> Verdict
    requires years { certificate.now.years ≡ length table.now.layers }
    requires valid { IsCertificate certificate.now }
    requires claim { IsClaim certificate.now.years certificate.now.width claim.now }
    ensures { IsVerdictOn table.now certificate.now claim.now result }
{
    match claim {
        Outcome::Plan { configs, total } => {
            judge_plan(table, certificate, configs.as_slice(), *total)
        }
        Outcome::Infeasible(year) => judge_infeasible(certificate, *year),
    }
}

/// The number of the first condition that fails, or yes.
///
/// The conditions, with a plan 1 to 6, with an infeasible year 1, 2, 3 and 7: the accepted configurations of
/// all years are named, and no other (1); each entry that is a number is at most every numbered predecessor's
/// entry plus the cost of the step (2); an entry is none only where every predecessor's is (3); the chosen
/// configurations are an admissible plan (4) that costs the total (5), which is at most each numbered entry
/// of the last year (6); each entry of the infeasible year is none (7). This program's own.
///
/// It takes no memory and never refuses. After a yes the plan is admissible, costs the total and none costs
/// less, or there is no plan.
pub fn judge(table: &CaseTable, certificate: &Certificate) -> Verdict
    requires years { certificate.now.years ≡ length table.now.layers }
    requires width { certificate.now.width ≡ length (greatest table.now.economy) }
    ensures verdict { IsVerdict table.now certificate.now result }
    ensures yes { result ≡ Yes → IsTrueOf table.now certificate.now.claim }
{
    let claim = certificate.claim();
    if !names_accepted(table, certificate) {
        return Verdict::No(1);
    }
    if !rule_holds(Rule::Bounded, table, certificate) {
        return Verdict::No(2);
    }
    if !rule_holds(Rule::Reached, table, certificate) {
        return Verdict::No(3);
    }
    judge_claim(table, certificate, claim)
}
