//! The years of a chosen plan.
ghost use Rattle.std.specs.Prelude.{◌≡◌, ℕ, ◌+◌, ◌<◌, ◌≤◌, [], ◌∷◌, List, length, All, IfOk, OnOk, map};
ghost use Rattle.cost_terms.specs.Cost.{nothing_built};
ghost use Rattle.cost_terms.specs.CostData.{Fits, greatest as candidate_counts};
ghost use Rattle.cost_terms.specs.Table.{IsEntry};
ghost use Rattle.checked_deck.specs.Economy.{costs};
ghost use Rattle.checked_deck.specs.Systems as systems;
ghost use Rattle.deck_check.specs.Readings as says;
ghost use Rattle.deck_lines.specs.Deck.{body_of};
ghost use Rattle.plan_program.specs.Chosen.{IsPlanOf};
ghost use Rattle.plant_data.specs.Configs.{IsAtMost};
ghost use Rattle.report_text.specs.ReadBack.{IsPrintableYear};
ghost use Rattle.report_text.specs.Report.{HasWidths};
ghost use Rattle.sim_engine.specs.Engine.{counted, raised};
ghost use Rattle.sim_engine.specs.Row.{row_of};
ghost use Rattle.case_study.specs.Case.{AreYearsFrom, IsTableOf, IsYearOf};
ghost use Rattle.case_study.specs.Inner.{HasPlace, HaveDetailed, IsPlacedAt, OnlyDetails};
ghost use Rattle.case_study.specs.Studies.{IsOn};

use crate::generation::year_generations;
use crate::study::Study;
use cost_terms::{CaseTable, Economy, Scored, build_cost, run_cost};
use plant_data::{Config, Listed};
use report_text::PlanYear;
use row_shelf::Shelf;
use sim_engine::SimEngine;
use std::alloc::Global;
use wasp_fixed::OutOfMemory;

/// The entry of a configuration, which a layer has.
fn entry_in(layer: &[Scored], config: &Config) -> Scored
    requires { HasPlace layer.now config.now }
    ensures { IsPlacedAt layer.now config.now result }
{
    for entry in layer {
        if entry.config == *config {
            return *entry;
        }
    }
    unreachable!()
}

/// A step of a plan: the configuration of the year before, and the entry of the year.
#[derive(Drop)]
struct PlanStep<'a> {
    economy: &'a Economy,
    before: &'a Config,
    chosen: &'a Scored,
}

/// The planned year of a place, counted from 0.
fn plan_year<E: SimEngine>(
    alloc: Global,
    study: &Study,
    shelf: &Shelf,
    place: usize,
    step: PlanStep,
    engine: &mut E,
) -> Result<PlanYear, OutOfMemory>
    requires on { IsOn shelf.now study.now }
    requires place { place < says.years (body_of study.now.deck) }
    requires economy { step.economy.now ≡ costs (body_of study.now.deck) }
    requires years { place < step.economy.now.years }
    requires width { candidate_counts step.economy.now ≡ says.greatest (body_of study.now.deck) }
    requires before { Fits step.economy.now step.before.now }
    requires entry { IsEntry step.economy.now step.chosen.now }
    requires grows { IsAtMost step.before.now step.chosen.now.config }
    requires row { step.chosen.now.row ≡
        row_of (systems.system (body_of study.now.deck) (place + 1)) step.chosen.now.config }
    ensures year { IfOk result (λ y.
        IsYearOf (body_of study.now.deck) (place + 1) study.now.tunnels step.entry.before.now y) }
    ensures config { IfOk result (λ y. y.config ≡ step.entry.chosen.now.config) }
    ensures widths { IfOk result (λ y. HasWidths (says.greatest (body_of study.now.deck)) y) }
    ensures printable { IfOk result (λ y. IsPrintableYear y) }
    ensures detailed { OnOk result ((E.work engine.new).detailed ≡ counted (E.work engine.old).detailed) }
    ensures work { OnlyDetails (E.work engine.old) (E.work engine.new) }
    ensures gone { HaveDetailed (E.work engine.old ∷ []) (E.work engine.new ∷ []) }
{
    // Its reading tells the proof that there are at most 30 years.
    let _years = study.typed().years();
    let year = place as u64 + 1;
    let entry = step.chosen;
    Ok(PlanYear {
        config: entry.config,
        tunnel: study.tunnels()[place],
        built: build_cost(step.economy, year, step.before, &entry.config),
        ran: run_cost(step.economy, year, &entry.config, &entry.row),
        row: entry.row,
        generations: year_generations(alloc, study, shelf, place, &entry.config, engine)?,
    })
}

/// The years of the plan of a case's table.
#[tactic(auto, using(crate::proofs::DetailSteps::detailed_none))]
pub(crate) fn plan_years<E: SimEngine>(
    alloc: Global,
    study: &Study,
    shelf: &Shelf,
    table: &CaseTable,
    configs: &[Config],
    engine: &mut E,
) -> Result<Listed<PlanYear>, OutOfMemory>
    requires on { IsOn shelf.now study.now }
    requires table { IsTableOf (body_of study.now.deck) study.now.case study.now.tunnels table.now }
    requires width { candidate_counts table.now.economy ≡ says.greatest (body_of study.now.deck) }
    requires chosen { (total : ℕ) × IsPlanOf table.now configs.now total }
    ensures years { IfOk result (λ ys.
        AreYearsFrom (body_of study.now.deck) 1 study.now.tunnels (nothing_built (costs (body_of study.now.deck))) ys) }
    ensures configs { IfOk result (λ ys. map (λ y. y.config) ys ≡ configs.now) }
    ensures widths { IfOk result (λ ys. All (HasWidths (says.greatest (body_of study.now.deck))) ys) }
    ensures printable { IfOk result (λ ys. All IsPrintableYear ys) }
    ensures detailed { OnOk result ((E.work engine.new).detailed
        ≡ raised (length configs.now) (E.work engine.old).detailed) }
    ensures work { OnlyDetails (E.work engine.old) (E.work engine.new) }
    ensures gone { HaveDetailed (E.work engine.old ∷ []) (E.work engine.new ∷ []) }
{
    let economy = table.economy();
    let layers = table.layers();
    let mut before = economy.nothing_built();
    let mut years = Vec::new(alloc);
    for k in 0..configs.len() {
        let entry = entry_in(layers[k].entries(), &configs[k]);
        let step = PlanStep {
            economy,
            before: &before,
            chosen: &entry,
        };
        years.push(plan_year(alloc, study, shelf, k, step, engine)?)?;
        before = configs[k];
    }
    Ok(Listed::new(years))
}
