//! The summary of a trial.
ghost use Rattle.std.specs.Prelude.{◌≡◌, ◌≤◌, ◌++◌, OnErr, OnOk, length};
ghost use Rattle.report_text.specs.Trial.{HasYear, last_line, last_lines, summary, trial_text};

use crate::case::push_outcome;
use crate::numbers::push_counts;
use plan_program::Outcome;
use plant_data::Config;
use wasp_fixed::OutOfMemory;

/// Appends the line of a plan's last configuration.
fn push_last(configs: &[Config], lines: &mut Vec<u8>) -> Result<(), OutOfMemory>
    requires { 1 ≤ length configs.now }
    ensures { OnOk result (lines.new.items ≡ lines.old.items ++ last_line configs.now) }
{
    lines.extend_from_slice(b"LAST")?;
    push_counts(&configs[configs.len() - 1], lines)?;
    lines.extend_from_slice(b"\n")?;
    Ok(())
}

/// The same of the plan, where there is one.
fn push_last_year(outcome: &Outcome, lines: &mut Vec<u8>) -> Result<(), OutOfMemory>
    requires { HasYear outcome.now }
    ensures { OnOk result (lines.new.items ≡ lines.old.items ++ last_lines outcome.now) }
{
    match outcome {
        Outcome::Plan { configs, .. } => push_last(configs.as_slice(), lines),
        Outcome::Infeasible(_) => Ok(()),
    }
}

/// Appends the line of a plan's cost and that of its last configuration, or the line of the first year that no plan
/// reaches.
fn push_summary(outcome: &Outcome, lines: &mut Vec<u8>) -> Result<(), OutOfMemory>
    requires { HasYear outcome.now }
    ensures { OnOk result (lines.new.items ≡ lines.old.items ++ summary outcome.now) }
{
    lines.extend_from_slice(b"CASE 1 ")?;
    push_outcome(outcome, lines)?;
    push_last_year(outcome, lines)
}

/// Appends the summary of a trial by the seed, the years and the candidates of its deck: the cost of the chosen plan
/// in dollars with its last configuration, or the first year that no plan reaches. A plan has a year. After
/// `OutOfMemory` the text is as before.
pub fn write_trial(
    seed: u64,
    years: u64,
    candidates: u64,
    outcome: &Outcome,
    text: &mut Vec<u8>,
) -> Result<(), OutOfMemory>
    requires { HasYear outcome.now }
    ensures appended { OnOk result (text.new.items ≡ text.old.items ++ trial_text seed years candidates outcome.now) }
    ensures kept { OnErr result (text.new.items ≡ text.old.items) }
{
    let head = format!(in *text.allocator(); "TRIAL {seed} {years} {candidates}\n")?;
    let mut lines = head.into_bytes();
    push_summary(outcome, &mut lines)?;
    text.extend_from_slice(&lines)?;
    Ok(())
}
