//! The report of a case.
ghost use Rattle.std.specs.Prelude.{◌≡◌, ◌++◌, OnOk, OnErr};
ghost use Rattle.report_text.specs.Report.{IsCaseReport, case_text, outcome_line, plan_text};

use crate::come::push_all_comes;
use crate::data::CaseReport;
use crate::year::push_year;
use plan_program::Outcome;
use wasp_fixed::OutOfMemory;

/// Appends the lines of the plan's years.
fn push_plan(report: &CaseReport, lines: &mut Vec<u8>) -> Result<(), OutOfMemory>
    requires { IsCaseReport report.now }
    ensures { OnOk result (lines.new.items ≡ lines.old.items ++ plan_text report.now) }
{
    let years = report.years.as_slice();
    for k in 0..years.len() {
        push_year(
            report.conditions,
            &report.greatest,
            k as u64 + 1,
            &years[k],
            lines,
        )?;
    }
    Ok(())
}

/// Appends the line of the plan's cost, or of the first year that no plan reaches.
pub(crate) fn push_outcome(outcome: &Outcome, lines: &mut Vec<u8>) -> Result<(), OutOfMemory>
    ensures { OnOk result (lines.new.items ≡ lines.old.items ++ outcome_line outcome.now) }
{
    let alloc = *lines.allocator();
    let line = match outcome {
        Outcome::Plan { total, .. } => format!(in alloc; "TOTAL {total}\n")?,
        Outcome::Infeasible(year) => format!(in alloc; "INFEASIBLE {year}\n")?,
    };
    lines.extend_from_slice(line.as_bytes())?;
    Ok(())
}

/// Appends the report of a case.
fn push_case(case: u64, report: &CaseReport, lines: &mut Vec<u8>) -> Result<(), OutOfMemory>
    requires { IsCaseReport report.now }
    ensures { OnOk result (lines.new.items ≡ lines.old.items ++ case_text case report.now) }
{
    let head = format!(in *lines.allocator(); "CASE {case}\n")?;
    lines.extend_from_slice(head.as_bytes())?;
    push_plan(report, lines)?;
    push_outcome(&report.solved.outcome, lines)?;
    push_all_comes(&report.table, report.solved.come.as_slice(), lines)
}

/// Appends the report of a case by its number, from 1: the chosen plan year by year with its cost, or the
/// first year that no plan reaches, and then the cost-to-come of each accepted configuration. After
/// `OutOfMemory` the text is as before.
pub fn write_case(case: u64, report: &CaseReport, text: &mut Vec<u8>) -> Result<(), OutOfMemory>
    requires { IsCaseReport report.now }
    ensures appended { OnOk result (text.new.items ≡ text.old.items ++ case_text case report.now) }
    ensures kept { OnErr result (text.new.items ≡ text.old.items) }
{
    let mut lines = Vec::new(*text.allocator());
    push_case(case, report, &mut lines)?;
    text.extend_from_slice(&lines)?;
    Ok(())
}
