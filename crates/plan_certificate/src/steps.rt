//! The conditions on each entry and its predecessors.
ghost use Rattle.std.specs.Prelude.{◌≡◌, ℕ, ◌+◌, ◌-◌, ◌*◌, ◌^◌, ◌<◌, ◌≤◌, ◌↔◌, All, IfSome, IsTrue, Some, length};
ghost use Rattle.plant_data.specs.Configs.{IsAtMost};
ghost use Rattle.cost_terms.specs.Cost.{step_cost};
ghost use Rattle.cost_terms.specs.CostData.{Fits};
ghost use Rattle.cost_terms.specs.Table.{IsEntry, IsTable};
ghost use Rattle.plan_program.specs.Plans.{entry_at, layer_at};
ghost use Rattle.plan_certificate.specs.Certificate.{CertData, IsCertificate, IsNamed, named_in};
ghost use Rattle.plan_certificate.specs.Steps.{AreAligned, ArrivalKeeps, IsArrival, IsBelow, IsReached, IsSmall, KeepsFrom, KeepsFromFirst, RuleHolds, YearKeeps, YearsKeep, arrival, name_at};

use crate::certificate::{Certificate, Named};
use cost_terms::{CaseTable, Economy, Scored, build_cost, run_cost};
use plant_data::Config;

/// What an entry must be to each predecessor's.
#[derive(Clone, Copy)]
pub enum Rule {
    /// A number is at most the predecessor's number with the cost of the step.
    Bounded,
    /// There is a number where the predecessor has one.
    Reached,
}

/// An accepted configuration of a year, counted from 1, with its entry and what it costs to run it.
#[derive(Clone, Copy)]
pub struct Arrival {
    pub year: u64,
    pub entry: Scored,
    pub value: Option<u64>,
    pub ran: u64,
}

/// Whether a number is at most the predecessor's with the cost of the step.
fn is_below(economy: &Economy, before: &Config, from: Option<u64>, to: &Arrival) -> bool
    requires to { IsArrival economy.now to.now }
    requires before { Fits economy.now before.now }
    requires from { IsSmall from }
    requires grows { IsAtMost before.now to.now.entry.config }
    ensures { IsTrue result ↔ IsBelow from to.now.value (step_cost economy.now to.now.year before.now to.now.entry.config to.now.entry.row) }
{
    let Some(from) = from else {
        return true;
    };
    let Some(value) = to.value else {
        return true;
    };
    if value <= from + to.ran {
        return true;
    }
    let built = build_cost(economy, to.year, before, &to.entry.config);
    value <= from + built.net() + to.ran
}

/// Whether there is a number where the predecessor has one.
fn is_reached(from: Option<u64>, value: Option<u64>) -> bool
    ensures { IsTrue result ↔ IsReached from value }
{
    match from {
        Some(_) => value.is_some(),
        None => true,
    }
}

/// Whether an arrival keeps a rule to one predecessor.
fn keeps_from(
    rule: Rule,
    economy: &Economy,
    before: &Config,
    from: Option<u64>,
    to: &Arrival,
) -> bool
    requires to { IsArrival economy.now to.now }
    requires before { Fits economy.now before.now }
    requires from { IsSmall from }
    requires grows { IsAtMost before.now to.now.entry.config }
    ensures { IsTrue result ↔ KeepsFrom rule economy.now before.now from to.now }
{
    match rule {
        Rule::Bounded => is_below(economy, before, from, to),
        Rule::Reached => is_reached(from, to.value),
    }
}

/// Whether an arrival keeps a rule to an entry of the year before, where that is a predecessor.
fn keeps_if_before(
    rule: Rule,
    economy: &Economy,
    before: &Config,
    from: Option<u64>,
    to: &Arrival,
) -> bool
    requires to { IsArrival economy.now to.now }
    requires before { Fits economy.now before.now }
    requires from { IsSmall from }
    ensures { IsTrue result ↔ (IsAtMost before.now to.now.entry.config → KeepsFrom rule economy.now before.now from to.now) }
{
    if !before.at_most(&to.entry.config) {
        return true;
    }
    keeps_from(rule, economy, before, from, to)
}

/// Whether an arrival keeps a rule to each predecessor in the year before.
fn keeps_from_all(
    rule: Rule,
    economy: &Economy,
    layer: &[Scored],
    names: &[Named],
    to: &Arrival,
) -> bool
    requires to { IsArrival economy.now to.now }
    requires entries { All (IsEntry economy.now) layer.now }
    requires long { length names.now ≡ length layer.now }
    requires values { (i : ℕ) → IsSmall (name_at names.now i).value }
    ensures { IsTrue result ↔ KeepsFromFirst rule economy.now layer.now names.now (length layer.now) to.now }
{
    for i in 0..layer.len() {
        if !keeps_if_before(rule, economy, &layer[i].config, names[i].value, to) {
            return false;
        }
    }
    true
}

/// The layer of a year, counted from 0.
pub fn layer_of(table: &CaseTable, year: usize) -> &[Scored]
    requires { year < length table.now.layers }
    ensures value { result.now ≡ layer_at table.now year }
    ensures entries { All (IsEntry table.now.economy) result.now }
    ensures valid { IsTable table.now }
{
    table.layers()[year].entries()
}

/// The arrival at an entry of a year, counted from 0.
fn arrival_at(economy: &Economy, year: usize, entry: &Scored, value: Option<u64>) -> Arrival
    requires last { year + 1 ≤ economy.now.years }
    requires few { year < 30 }
    requires entry { IsEntry economy.now entry.now }
    requires value { IsSmall value }
    ensures value { result ≡ arrival economy.now year entry.now value }
    ensures valid { IsArrival economy.now result }
{
    let year = year as u64 + 1;
    Arrival {
        year,
        entry: *entry,
        value,
        ran: run_cost(economy, year, &entry.config, &entry.row).total(),
    }
}

/// Whether an arrival in a year, counted from 0, keeps a rule to each predecessor.
fn arrival_keeps(
    rule: Rule,
    table: &CaseTable,
    certificate: &Certificate,
    year: usize,
    to: &Arrival,
) -> bool
    requires year { year < length table.now.layers }
    requires years { certificate.now.years ≡ length table.now.layers }
    requires aligned { AreAligned table.now certificate.now }
    requires to { IsArrival table.now.economy to.now }
    ensures { IsTrue result ↔ ArrivalKeeps rule table.now certificate.now year to.now }
{
    let economy = table.economy();
    if year == 0 {
        return keeps_from(rule, economy, &economy.nothing_built(), Some(0), to);
    }
    let names = certificate.named(year - 1);
    keeps_from_all(rule, economy, layer_of(table, year - 1), names, to)
}

/// Whether each entry of a year, counted from 0, keeps a rule to each predecessor.
fn year_keeps(rule: Rule, table: &CaseTable, certificate: &Certificate, year: usize) -> bool
    requires year { year < length table.now.layers }
    requires years { certificate.now.years ≡ length table.now.layers }
    requires aligned { AreAligned table.now certificate.now }
    ensures { IsTrue result ↔ YearKeeps rule table.now certificate.now year (length (layer_at table.now year)) }
{
    let layer = layer_of(table, year);
    let names = certificate.named(year);
    for j in 0..layer.len() {
        let to = arrival_at(table.economy(), year, &layer[j], names[j].value);
        if !arrival_keeps(rule, table, certificate, year, &to) {
            return false;
        }
    }
    true
}

/// Whether each entry keeps a rule to each predecessor.
pub fn rule_holds(rule: Rule, table: &CaseTable, certificate: &Certificate) -> bool
    requires years { certificate.now.years ≡ length table.now.layers }
    requires valid { IsCertificate certificate.now }
    requires aligned { AreAligned table.now certificate.now }
    ensures { IsTrue result ↔ RuleHolds rule table.now certificate.now }
{
    for year in 0..table.layers().len() {
        if !year_keeps(rule, table, certificate, year) {
            return false;
        }
    }
    true
}
