//! The costs-to-come, year by year.
ghost use Rattle.std.specs.Prelude.{◌≡◌, ℕ, ◌+◌, ◌-◌, ◌*◌, ◌^◌, ◌<◌, ◌≤◌, ◌++◌, [], ◌∷◌, IfOk, IsTrue, OnOk, IfSome, All, IsPermutation, Option, length, map, slice_index_or, Some, None};
ghost use Rattle.std.specs.List.Sorted.{IsNonDecreasingBy};
ghost use Rattle.cost_terms.specs.CostData.{Fits, greatest};
ghost use Rattle.cost_terms.specs.StepTable.{IsStanding, IsStepTable};
ghost use Rattle.cost_terms.specs.Table.{IsEntry, IsTable};
ghost use Rattle.plan_program.specs.CostToCome.{come_at};
ghost use Rattle.plan_program.specs.Plans.{entry_at};
ghost use Rattle.plan_program.specs.Sieve.{IsSieve};
ghost use Rattle.plan_program.specs.Starts.{AreListed, AreStarts, IsSettled, IsStart, reached_of};
ghost use Rattle.plan_program.specs.Steps.{AreNumbered, AreWayCosts, IsLeastFrom, IsRaised, IsWithWay, reached_at};

use crate::sieve::{Sieve, next, sieve_of};
use crate::solved::CostToCome;
use cost_terms::{CaseTable, Economy, Scored, Standing, StepTable, run_cost};
use plant_data::{Config, Listed};
use std::alloc::{AllocError, Global};

/// A configuration that some admissible plan of the years so far ends in, with the least cost of these, in
/// dollars.
#[derive(Clone, Copy)]
pub struct Reached {
    pub config: Config,
    pub cost: u64,
}

/// What is added to a potential, so that none is below 0: no step's additions cost more.
const LIFT: u64 = 10_000_000_000_000_000;

/// A configuration that is reached, as a year sees it.
#[derive(Clone, Copy)]
pub struct Start {
    /// The configuration with its sums.
    pub standing: Standing,
    /// The least cost of coming to it.
    pub cost: u64,
    /// That cost less what the configuration would cost if all of it were built in the year, and `LIFT`: the
    /// lower, the cheaper are the ways on.
    pub potential: u64,
}

/// A configuration that is reached, as the year of the tables sees it.
fn start_of(economy: &Economy, steps: &StepTable, reached: &Reached) -> Start
    requires table { IsStepTable economy.now steps.now }
    requires limit { steps.now.year ≤ 30 }
    requires fits { Fits economy.now reached.now.config }
    requires small { reached.now.cost ≤ (steps.now.year - 1) * (2 * 10 ^ 16) }
    ensures start { IsStart economy.now steps.now.year result }
    ensures same { reached_of result ≡ reached.now }
{
    let standing = steps.standing(economy, &reached.config);
    Start {
        standing,
        cost: reached.cost,
        potential: reached.cost + LIFT - standing.net,
    }
}

/// Puts starts in the order of their potentials.
fn sort_starts(starts: &mut Vec<Start>)
    ensures permutation { IsPermutation starts.old.items starts.new.items }
    ensures sorted { IsNonDecreasingBy (λ s. s.potential) starts.new.items }
{
    starts.sort_unstable_by_key(
        |start: &Start| -> u64
            ensures { result ≡ start.now.potential }
        { start.potential },
    );
}

/// All that is reached, as the year of the tables sees it, in the same order.
fn list_starts(
    alloc: Global,
    economy: &Economy,
    steps: &StepTable,
    reached: &[Reached],
) -> Result<Vec<Start>, AllocError>
    requires table { IsStepTable economy.now steps.now }
    requires limit { steps.now.year ≤ 30 }
    requires fits { (i : ℕ) → i < length reached.now → Fits economy.now (reached_at reached.now i).config }
    requires small { (i : ℕ) → i < length reached.now → (reached_at reached.now i).cost ≤ (steps.now.year - 1) * (2 * 10 ^ 16) }
    ensures { IfOk result (λ starts. AreListed economy.now steps.now.year reached.now (length reached.now) starts.items) }
{
    let mut starts = Vec::with_capacity(alloc, reached.len())?;
    for from in reached {
        starts.push(start_of(economy, steps, from))?;
    }
    Ok(starts)
}

/// All that is reached, as the year of the tables sees it, in the order of potentials.
fn starts_of(
    alloc: Global,
    economy: &Economy,
    steps: &StepTable,
    reached: &[Reached],
) -> Result<Vec<Start>, AllocError>
    requires table { IsStepTable economy.now steps.now }
    requires limit { steps.now.year ≤ 30 }
    requires fits { (i : ℕ) → i < length reached.now → Fits economy.now (reached_at reached.now i).config }
    requires small { (i : ℕ) → i < length reached.now → (reached_at reached.now i).cost ≤ (steps.now.year - 1) * (2 * 10 ^ 16) }
    ensures starts { IfOk result (λ starts. AreStarts economy.now steps.now.year reached.now starts.items) }
    ensures sorted { IfOk result (λ starts. IsNonDecreasingBy (λ s. s.potential) starts.items) }
{
    let mut starts = list_starts(alloc, economy, steps, reached)?;
    sort_starts(&mut starts);
    Ok(starts)
}

/// The sieve of a year's starts.
fn year_sieve(
    alloc: Global,
    economy: &Economy,
    steps: &StepTable,
    starts: &[Start],
) -> Result<Sieve, AllocError>
    requires table { IsStepTable economy.now steps.now }
    requires starts { All (IsStart economy.now steps.now.year) starts.now }
    ensures { IfOk result (λ sieve. IsSieve starts.now (length (greatest economy.now)) sieve) }
{
    sieve_of(alloc, starts, economy.nothing_built().width())
}

/// The least cost so far of coming to a configuration, with the way from one more that is reached.
fn with_way(
    economy: &Economy,
    steps: &StepTable,
    from: &Start,
    to: &Standing,
    least: Option<u64>,
) -> Option<u64>
    requires table { IsStepTable economy.now steps.now }
    requires limit { steps.now.year ≤ 30 }
    requires from { IsStart economy.now steps.now.year from.now }
    requires to { IsStanding economy.now steps.now.year to.now }
    requires least { IfSome least (λ cost. cost ≤ (steps.now.year - 1) * (2 * 10 ^ 16) + 10 ^ 16) }
    ensures value { IsWithWay economy.now steps.now.year (reached_of from.now) to.now.config least result }
    ensures small { IfSome result (λ cost. cost ≤ (steps.now.year - 1) * (2 * 10 ^ 16) + 10 ^ 16) }
{
    if !from.standing.config.at_most(&to.config) {
        return least;
    }
    let cost = from.cost + steps.net_build(economy, &from.standing, to);
    match least {
        Some(other) => Some(other.min(cost)),
        None => Some(cost),
    }
}

/// Whether no way from a potential on can be cheaper than the least so far, whatever the floors do: they take
/// less than two dollars from a way in two steps.
fn is_settled(least: Option<u64>, from: &Start, to: &Standing) -> bool
    requires least { IfSome least (λ cost. cost ≤ 30 * (2 * 10 ^ 16)) }
    requires from { from.now.potential ≤ 30 * (2 * 10 ^ 16) }
    requires to { to.now.net ≤ 10 ^ 16 }
    ensures { IsTrue result → IsSettled least from.now.potential to.now.net }
{
    let Some(cost) = least else {
        return false;
    };
    cost + LIFT + 2 <= from.potential + to.net
}

/// The least cost of coming to a configuration from those reached in the year before, without what it costs
/// to run it.
fn least_from(
    economy: &Economy,
    steps: &StepTable,
    starts: &[Start],
    sieve: &Sieve,
    to: &Standing,
) -> Option<u64>
    requires table { IsStepTable economy.now steps.now }
    requires limit { steps.now.year ≤ 30 }
    requires starts { All (IsStart economy.now steps.now.year) starts.now }
    requires sorted { IsNonDecreasingBy (λ s. s.potential) starts.now }
    requires sieve { IsSieve starts.now (length (greatest economy.now)) sieve.now }
    requires to { IsStanding economy.now steps.now.year to.now }
    ensures least { IsLeastFrom economy.now steps.now.year (map reached_of starts.now) (length starts.now) to.now.config result }
    ensures small { IfSome result (λ cost. cost ≤ (steps.now.year - 1) * (2 * 10 ^ 16) + 10 ^ 16) }
{
    let mut least = None;
    let mut place = next(sieve, starts, &to.config, 0);
    while place < starts.len() {
        let from = &starts[place];
        if is_settled(least, from, to) {
            return least;
        }
        least = with_way(economy, steps, from, to, least);
        place = next(sieve, starts, &to.config, place + 1);
    }
    least
}

/// The cost-to-come of an entry, from what is reached before its year.
fn cost_to_come(
    economy: &Economy,
    steps: &StepTable,
    starts: &[Start],
    sieve: &Sieve,
    entry: &Scored,
) -> Option<u64>
    requires table { IsStepTable economy.now steps.now }
    requires limit { steps.now.year ≤ 30 }
    requires entry { IsEntry economy.now entry.now }
    requires starts { All (IsStart economy.now steps.now.year) starts.now }
    requires sorted { IsNonDecreasingBy (λ s. s.potential) starts.now }
    requires sieve { IsSieve starts.now (length (greatest economy.now)) sieve.now }
    ensures value { IsRaised economy.now steps.now.year (map reached_of starts.now) entry.now result }
    ensures small { IfSome result (λ cost. cost ≤ steps.now.year * (2 * 10 ^ 16)) }
{
    let to = steps.standing(economy, &entry.config);
    let least = least_from(economy, steps, starts, sieve, &to)?;
    let ran = run_cost(economy, steps.year, &entry.config, &entry.row);
    Some(least + ran.total())
}

/// The costs-to-come of a year's entries, from what is reached before it.
fn entry_costs(
    alloc: Global,
    economy: &Economy,
    steps: &StepTable,
    starts: &[Start],
    sieve: &Sieve,
    layer: &[Scored],
) -> Result<Vec<Option<u64>>, AllocError>
    requires table { IsStepTable economy.now steps.now }
    requires limit { steps.now.year ≤ 30 }
    requires entries { All (IsEntry economy.now) layer.now }
    requires starts { All (IsStart economy.now steps.now.year) starts.now }
    requires sorted { IsNonDecreasingBy (λ s. s.potential) starts.now }
    requires sieve { IsSieve starts.now (length (greatest economy.now)) sieve.now }
    ensures entries { IfOk result (λ come. length come.items ≡ length layer.now) }
    ensures each { IfOk result (λ come. (i : ℕ) → i < length layer.now → IsRaised economy.now steps.now.year (map reached_of starts.now) (entry_at layer.now i) (slice_index_or come.items i None)) }
    ensures small { IfOk result (λ come. (i cost : ℕ) → slice_index_or come.items i None ≡ Some cost → cost ≤ steps.now.year * (2 * 10 ^ 16)) }
{
    let mut come = Vec::with_capacity(alloc, layer.len())?;
    for entry in layer {
        come.push(cost_to_come(economy, steps, starts, sieve, entry))?;
    }
    Ok(come)
}

/// The costs-to-come of a year's entries, from what is reached before it.
fn year_costs(
    alloc: Global,
    economy: &Economy,
    year: u64,
    reached: &[Reached],
    layer: &[Scored],
) -> Result<Vec<Option<u64>>, AllocError>
    requires first { 1 ≤ year }
    requires last { year ≤ economy.now.years }
    requires limit { year ≤ 30 }
    requires entries { All (IsEntry economy.now) layer.now }
    requires fits { (i : ℕ) → i < length reached.now → Fits economy.now (reached_at reached.now i).config }
    requires small { (i : ℕ) → i < length reached.now → (reached_at reached.now i).cost ≤ (year - 1) * (2 * 10 ^ 16) }
    ensures entries { IfOk result (λ come. length come.items ≡ length layer.now) }
    ensures each { IfOk result (λ come. (i : ℕ) → i < length layer.now → IsRaised economy.now year reached.now (entry_at layer.now i) (slice_index_or come.items i None)) }
    ensures small { IfOk result (λ come. (i cost : ℕ) → slice_index_or come.items i None ≡ Some cost → cost ≤ year * (2 * 10 ^ 16)) }
{
    let steps = StepTable::new(alloc, economy, year)?;
    let starts = starts_of(alloc, economy, &steps, reached)?;
    let sieve = year_sieve(alloc, economy, &steps, &starts)?;
    let come = entry_costs(alloc, economy, &steps, &starts, &sieve, layer)?;
    Ok(come)
}

/// Adds a configuration to those reached, where it has a cost-to-come.
fn add_numbered(
    config: Config,
    come: Option<u64>,
    reached: &mut Vec<Reached>,
) -> Result<(), AllocError>
    ensures some { (cost : ℕ) → come ≡ Some cost → OnOk result (reached.new.items ≡ reached.old.items ++ record { config = config; cost = cost } ∷ []) }
    ensures none { come ≡ None → OnOk result (reached.new.items ≡ reached.old.items) }
{
    let Some(cost) = come else {
        return Ok(());
    };
    reached.push(Reached { config, cost })?;
    Ok(())
}

/// The entries of a year that have a cost-to-come, with it.
fn numbered(
    alloc: Global,
    layer: &[Scored],
    come: &[Option<u64>],
) -> Result<Vec<Reached>, AllocError>
    requires { length come.now ≡ length layer.now }
    ensures { IfOk result (λ reached. AreNumbered layer.now come.now (length layer.now) reached.items) }
{
    let mut reached = Vec::new(alloc);
    for i in 0..layer.len() {
        add_numbered(layer[i].config, come[i], &mut reached)?;
    }
    Ok(reached)
}

/// The costs-to-come of all years.
pub fn costs_to_come(alloc: Global, table: &CaseTable) -> Result<CostToCome, AllocError>
    ensures value { IfOk result (λ come. AreWayCosts table.now (length table.now.layers) come) }
    ensures valid { IsTable table.now }
{
    let economy = table.economy();
    let layers = table.layers();
    let start = Reached {
        config: economy.nothing_built(),
        cost: 0,
    };
    let mut reached = vec![in alloc; start]?;
    let mut years = Vec::new(alloc);
    for k in 0..layers.len() {
        let layer = layers[k].entries();
        let come = year_costs(alloc, economy, k as u64 + 1, &reached, layer)?;
        reached = numbered(alloc, layer, &come)?;
        years.push(Listed::new(come))?;
    }
    Ok(Listed::new(years))
}
