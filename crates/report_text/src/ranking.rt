//! What is written of the best plans of a case.
ghost use Rattle.std.specs.Prelude.{◌≡◌, ◌++◌, [], OnOk, OnErr};
ghost use Rattle.report_text.specs.Ranking.{case_head, chosen_lines, over_text, rank_text, ranked_text, ranking_text};

use crate::case::push_outcome;
use crate::refusals::{Refusal, write_refusal};
use crate::year::push_chosen;
use best_plans::Ranked;
use plan_program::Outcome;
use plant_data::Config;
use wasp_fixed::OutOfMemory;

/// Appends the configurations of a plan, year by year.
fn push_configs(configs: &[Config], lines: &mut Vec<u8>) -> Result<(), OutOfMemory>
    ensures { OnOk result (lines.new.items ≡ lines.old.items ++ chosen_lines configs.now) }
{
    for k in 0..configs.len() {
        push_chosen(k as u64 + 1, &configs[k], lines)?;
    }
    Ok(())
}

/// Appends the plan of a rank.
fn push_rank(rank: u64, ranked: &Ranked, lines: &mut Vec<u8>) -> Result<(), OutOfMemory>
    ensures { OnOk result (lines.new.items ≡ lines.old.items ++ rank_text rank ranked.now) }
{
    let total = ranked.total;
    let head = format!(in *lines.allocator(); "RANK {rank} {total}\n")?;
    lines.extend_from_slice(head.as_bytes())?;
    push_configs(ranked.configs.as_slice(), lines)
}

/// Appends plans in their order.
fn push_ranks(ranking: &[Ranked], lines: &mut Vec<u8>) -> Result<(), OutOfMemory>
    ensures { OnOk result (lines.new.items ≡ lines.old.items ++ ranked_text ranking.now) }
{
    for k in 0..ranking.len() {
        push_rank(k as u64 + 1, &ranking[k], lines)?;
    }
    Ok(())
}

/// Appends what a case begins with.
fn push_head(case: u64, lines: &mut Vec<u8>) -> Result<(), OutOfMemory>
    ensures { OnOk result (lines.new.items ≡ lines.old.items ++ case_head case) }
{
    let head = format!(in *lines.allocator(); "CASE {case}\n")?;
    lines.extend_from_slice(head.as_bytes())?;
    Ok(())
}

/// Appends the ranked plans of a case by its number, from 1: the cost of each in dollars of present worth and its
/// configurations year by year. After `OutOfMemory` the text is as before.
pub fn write_ranking(case: u64, ranking: &[Ranked], text: &mut Vec<u8>) -> Result<(), OutOfMemory>
    ensures appended { OnOk result (text.new.items ≡ text.old.items ++ (case_head case ++ ranked_text ranking.now)) }
    ensures kept { OnErr result (text.new.items ≡ text.old.items) }
{
    let mut lines = Vec::new(*text.allocator());
    push_head(case, &mut lines)?;
    push_ranks(ranking, &mut lines)?;
    text.extend_from_slice(&lines)?;
    Ok(())
}

/// Appends a case without a plan by its number, from 1, with its outcome: the first year that no plan reaches. After
/// `OutOfMemory` the text is as before.
pub fn write_no_plan(case: u64, outcome: &Outcome, text: &mut Vec<u8>) -> Result<(), OutOfMemory>
    ensures appended { OnOk result (text.new.items ≡ text.old.items ++ ranking_text case outcome.now []) }
    ensures kept { OnErr result (text.new.items ≡ text.old.items) }
{
    let mut lines = Vec::new(*text.allocator());
    push_head(case, &mut lines)?;
    push_outcome(outcome, &mut lines)?;
    text.extend_from_slice(&lines)?;
    Ok(())
}

/// Appends a case that is over a limit by its number, from 1, with its refusal. After `OutOfMemory` the text is as
/// before.
pub fn write_over(case: u64, refusal: &Refusal, text: &mut Vec<u8>) -> Result<(), OutOfMemory>
    ensures appended { OnOk result (text.new.items ≡ text.old.items ++ over_text case refusal.now) }
    ensures kept { OnErr result (text.new.items ≡ text.old.items) }
{
    let mut lines = Vec::new(*text.allocator());
    push_head(case, &mut lines)?;
    write_refusal(refusal, &mut lines)?;
    text.extend_from_slice(&lines)?;
    Ok(())
}
