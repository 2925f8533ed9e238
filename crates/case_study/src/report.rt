//! The report of a settled case.
ghost use Rattle.std.specs.Prelude.{◌≡◌, ◌≤◌, [], ◌∷◌, All, IfOk, length, map};
ghost use Rattle.cost_terms.specs.Cost.{nothing_built};
ghost use Rattle.cost_terms.specs.CostData.{greatest as candidate_counts};
ghost use Rattle.cost_terms.specs.Table.{IsTable};
ghost use Rattle.checked_deck.specs.Economy.{costs};
ghost use Rattle.deck_check.specs.Readings as says;
ghost use Rattle.deck_lines.specs.Deck.{body_of};
ghost use Rattle.plan_program.specs.Chosen.{IsOutcome, IsSolution};
ghost use Rattle.report_text.specs.ReadBack.{IsPrintable, IsPrintableYear};
ghost use Rattle.report_text.specs.Report.{HasWidths, IsCaseReport, plan_of};
ghost use Rattle.sim_engine.specs.Engine.{raised};
ghost use Rattle.case_study.specs.Case.{AreYearsFrom, IsReportOf, IsTableOf, conditions_of};
ghost use Rattle.case_study.specs.Inner.{HaveDetailed, OnlyDetails};
ghost use Rattle.case_study.specs.Studies.{IsOn};
ghost use Rattle.year_system.specs.System.{greatest};

use crate::planned::plan_years;
use crate::study::Study;
use cost_terms::{CaseTable, Economy};
use plan_program::Outcome;
use plant_data::{Config, Listed};
use report_text::{CaseReport, PlanYear};
use row_shelf::Shelf;
use sim_engine::SimEngine;
use sim_sweep::CaseDone;
use std::alloc::Global;
use wasp_fixed::OutOfMemory;
use year_system::YearSystem;

/// The greatest counts of a system's candidates.
pub fn greatest_of(system: &YearSystem) -> Config
    ensures { result ≡ greatest system.now }
{
    let mut counts = Config::zero(system.width());
    for k in 0..system.width() {
        counts.set(k, system.greatest(k));
    }
    counts
}

/// How many conditions have their energy not served printed.
fn conditions_of(economy: &Economy) -> u64
    ensures value { (d : says.Says) → economy.now ≡ costs d → result ≡ conditions_of d }
    ensures few { result ≤ 5 }
{
    let costs = economy.costs();
    if costs.version == 1 {
        0
    } else {
        costs.weights.as_slice().len() as u64
    }
}

/// The years of the plan, where there is one.
#[tactic(auto, using(crate::proofs::DetailSteps::detailed_none))]
fn years_of<E: SimEngine>(
    alloc: Global,
    study: &Study,
    shelf: &Shelf,
    table: &CaseTable,
    outcome: &Outcome,
    engine: &mut E,
) -> Result<Listed<PlanYear>, OutOfMemory>
    requires on { IsOn shelf.now study.now }
    requires table { IsTableOf (body_of study.now.deck) study.now.case study.now.tunnels table.now }
    requires width { candidate_counts table.now.economy ≡ says.greatest (body_of study.now.deck) }
    requires outcome { IsOutcome table.now outcome.now }
    ensures years { IfOk result (λ ys.
        AreYearsFrom (body_of study.now.deck) 1 study.now.tunnels (nothing_built (costs (body_of study.now.deck))) ys) }
    ensures plan { IfOk result (λ ys. map (λ y. y.config) ys ≡ plan_of outcome.now) }
    ensures widths { IfOk result (λ ys. All (HasWidths (says.greatest (body_of study.now.deck))) ys) }
    ensures printable { IfOk result (λ ys. All IsPrintableYear ys) }
    ensures detailed { IfOk result (λ ys. (E.work engine.new).detailed
        ≡ raised (length ys) (E.work engine.old).detailed) }
    ensures work { OnlyDetails (E.work engine.old) (E.work engine.new) }
    ensures gone { HaveDetailed (E.work engine.old ∷ []) (E.work engine.new ∷ []) }
{
    match outcome {
        Outcome::Plan { configs, .. } => {
            plan_years(alloc, study, shelf, table, configs.as_slice(), engine)
        }
        Outcome::Infeasible(_) => Ok(Listed::new(Vec::new(alloc))),
    }
}

/// The report of a settled case.
pub fn report_case<E: SimEngine>(
    alloc: Global,
    study: &Study,
    shelf: &Shelf,
    done: CaseDone,
    engine: &mut E,
) -> Result<CaseReport, OutOfMemory>
    requires on { IsOn shelf.now study.now }
    requires table { IsTableOf (body_of study.now.deck) study.now.case study.now.tunnels done.table }
    requires width { candidate_counts done.table.economy ≡ says.greatest (body_of study.now.deck) }
    requires solution { IsSolution done.table done.solved }
    ensures report { IfOk result (λ report.
        IsReportOf (body_of study.now.deck) study.now.case study.now.tunnels report) }
    ensures in_form { IfOk result (λ report. IsCaseReport report) }
    ensures table { IfOk result (λ report. IsTable report.table) }
    ensures printable { IfOk result (λ report. IsPrintable study.now.case report) }
    ensures detailed { IfOk result (λ report. (E.work engine.new).detailed
        ≡ raised (length report.years) (E.work engine.old).detailed) }
    ensures work { OnlyDetails (E.work engine.old) (E.work engine.new) }
    ensures gone { HaveDetailed (E.work engine.old ∷ []) (E.work engine.new ∷ []) }
{
    // Their readings tell the proof that there is a year, and that the case is a number of 64 bits.
    let _years = study.typed().years();
    let _case = study.case();
    let (table, solved) = done.into_parts();
    let years = years_of(alloc, study, shelf, &table, &solved.outcome, engine)?;
    let greatest = greatest_of(shelf.system(study.ids()[0]));
    let conditions = conditions_of(table.economy());
    Ok(CaseReport {
        years,
        greatest,
        conditions,
        table,
        solved,
    })
}
