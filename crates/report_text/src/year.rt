//! The lines of a year of the chosen plan.
ghost use Rattle.std.specs.Prelude.{◌≡◌, ◌<◌, ◌≤◌, ◌++◌, ◌∷◌, [], OnOk, length};
ghost use Rattle.report_text.specs.Marks as spec;
ghost use Rattle.report_text.specs.Marks.{is_lower, is_upper, mark_at, marks};
ghost use Rattle.report_text.specs.Report.{HasWidths, chosen_line, edge_line, gen_line, gen_lines, id_word, risk_line, short_line, terms_line, year_text};

use crate::data::{Generation, PlanYear};
use crate::numbers::{push_counts, push_numbers};
use checked_deck::PlantId;
use cost_terms::{Built, Ran};
use plant_data::{Config, MAX_COUNT, Row, Tunnel};
use wasp_fixed::OutOfMemory;

/// Appends the line of the planned configuration.
pub(crate) fn push_chosen(
    year: u64,
    config: &Config,
    lines: &mut Vec<u8>,
) -> Result<(), OutOfMemory>
    ensures { OnOk result (lines.new.items ≡ lines.old.items ++ chosen_line year config.now) }
{
    let head = format!(in *lines.allocator(); "CHOSEN {year}")?;
    lines.extend_from_slice(head.as_bytes())?;
    push_counts(config, lines)?;
    lines.extend_from_slice(b"\n")?;
    Ok(())
}

/// The mark of a count: where it stands at an edge of its tunnel that may be moved.
fn mark(least: u64, width: u64, greatest: u64, count: u64) -> u8
    requires least { least ≤ MAX_COUNT }
    requires width { width ≤ MAX_COUNT }
    ensures { result ∷ [] ≡ spec.mark (is_upper least width greatest count) (is_lower least count) }
{
    let upper = count == least + width && count < greatest;
    let lower = count == least && count > 0;
    match (upper, lower) {
        (true, true) => b'=',
        (true, false) => b'+',
        (false, true) => b'-',
        (false, false) => b'.',
    }
}

/// Appends the mark of the candidate at place `k`.
fn push_mark(
    greatest: &Config,
    tunnel: &Tunnel,
    config: &Config,
    k: usize,
    lines: &mut Vec<u8>,
) -> Result<(), OutOfMemory>
    requires within { k < length config.now }
    requires greatest { length greatest.now ≡ length config.now }
    requires least { length tunnel.now.least ≡ length config.now }
    requires width { length tunnel.now.width ≡ length config.now }
    ensures { OnOk result (lines.new.items ≡ lines.old.items ++ mark_at greatest.now tunnel.now config.now k) }
{
    let least = tunnel.least.get(k);
    let width = tunnel.width.get(k);
    lines.push(mark(least, width, greatest.get(k), config.get(k)))?;
    Ok(())
}

/// Appends the marks of a configuration.
fn push_marks(
    greatest: &Config,
    tunnel: &Tunnel,
    config: &Config,
    lines: &mut Vec<u8>,
) -> Result<(), OutOfMemory>
    requires greatest { length greatest.now ≡ length config.now }
    requires least { length tunnel.now.least ≡ length config.now }
    requires width { length tunnel.now.width ≡ length config.now }
    ensures { OnOk result (lines.new.items ≡ lines.old.items ++ marks greatest.now tunnel.now config.now) }
{
    for k in 0..config.width() {
        push_mark(greatest, tunnel, config, k, lines)?;
    }
    Ok(())
}

/// Appends the line of the marks.
fn push_edges(
    year: u64,
    greatest: &Config,
    tunnel: &Tunnel,
    config: &Config,
    lines: &mut Vec<u8>,
) -> Result<(), OutOfMemory>
    requires greatest { length greatest.now ≡ length config.now }
    requires least { length tunnel.now.least ≡ length config.now }
    requires width { length tunnel.now.width ≡ length config.now }
    ensures { OnOk result (lines.new.items ≡ lines.old.items ++ edge_line year greatest.now tunnel.now config.now) }
{
    let head = format!(in *lines.allocator(); "EDGE {year} ")?;
    lines.extend_from_slice(head.as_bytes())?;
    push_marks(greatest, tunnel, config, lines)?;
    lines.extend_from_slice(b"\n")?;
    Ok(())
}

/// Appends the line of the terms of the year's cost.
fn push_terms(year: u64, built: &Built, ran: &Ran, lines: &mut Vec<u8>) -> Result<(), OutOfMemory>
    ensures { OnOk result (lines.new.items ≡ lines.old.items ++ terms_line year built.now ran.now) }
{
    let head = format!(in *lines.allocator(); "TERMS {year}")?;
    lines.extend_from_slice(head.as_bytes())?;
    let terms = [
        built.build,
        built.salvage,
        built.stock,
        ran.fuel,
        ran.upkeep,
        ran.unserved,
    ];
    push_numbers(&terms, lines)?;
    lines.extend_from_slice(b"\n")?;
    Ok(())
}

/// Appends the line of the loss-of-load probabilities and the energy not served.
fn push_risk(year: u64, row: &Row, lines: &mut Vec<u8>) -> Result<(), OutOfMemory>
    ensures { OnOk result (lines.new.items ≡ lines.old.items ++ risk_line year row.now) }
{
    let Row {
        worst,
        average,
        unserved,
        ..
    } = *row;
    let line = format!(in *lines.allocator(); "RISK {year} {worst} {average} {unserved}\n")?;
    lines.extend_from_slice(line.as_bytes())?;
    Ok(())
}

/// Appends the line of the energy not served under the first conditions, or nothing where there are none.
fn push_shorts(
    conditions: u64,
    year: u64,
    row: &Row,
    lines: &mut Vec<u8>,
) -> Result<(), OutOfMemory>
    requires { conditions ≤ 5 }
    ensures { OnOk result (lines.new.items ≡ lines.old.items ++ short_line conditions year row.now) }
{
    if conditions == 0 {
        return Ok(());
    }
    let head = format!(in *lines.allocator(); "SHORT {year}")?;
    lines.extend_from_slice(head.as_bytes())?;
    let shorts = [row.short1, row.short2, row.short3, row.short4, row.short5];
    push_numbers(&shorts[..conditions as usize], lines)?;
    lines.extend_from_slice(b"\n")?;
    Ok(())
}

/// Appends the word of a plant, a thermal candidate or a hydro group.
fn push_id(id: PlantId, lines: &mut Vec<u8>) -> Result<(), OutOfMemory>
    ensures { OnOk result (lines.new.items ≡ lines.old.items ++ id_word id) }
{
    let alloc = *lines.allocator();
    let word = match id {
        PlantId::Existing(p) => format!(in alloc; "P{p}")?,
        PlantId::Thermal(k) => format!(in alloc; "T{k}")?,
        PlantId::Hydro(g) => format!(in alloc; "H{g}")?,
    };
    lines.extend_from_slice(word.as_bytes())?;
    Ok(())
}

/// Appends the line of what a plant, a candidate or a group generates.
fn push_generation(
    year: u64,
    generation: &Generation,
    lines: &mut Vec<u8>,
) -> Result<(), OutOfMemory>
    ensures { OnOk result (lines.new.items ≡ lines.old.items ++ gen_line year generation.now) }
{
    let energy = generation.energy;
    let head = format!(in *lines.allocator(); "GEN {year} ")?;
    lines.extend_from_slice(head.as_bytes())?;
    push_id(generation.id, lines)?;
    lines.push(b' ')?;
    lines.extend_from_slice(generation.name.as_bytes())?;
    let tail = format!(in *lines.allocator(); " {energy}\n")?;
    lines.extend_from_slice(tail.as_bytes())?;
    Ok(())
}

/// Appends the lines of what each generates.
fn push_generations(
    year: u64,
    generations: &[Generation],
    lines: &mut Vec<u8>,
) -> Result<(), OutOfMemory>
    ensures { OnOk result (lines.new.items ≡ lines.old.items ++ gen_lines year generations.now) }
{
    for generation in generations {
        push_generation(year, generation, lines)?;
    }
    Ok(())
}

/// Appends the lines of a year of the plan.
pub(crate) fn push_year(
    conditions: u64,
    greatest: &Config,
    year: u64,
    planned: &PlanYear,
    lines: &mut Vec<u8>,
) -> Result<(), OutOfMemory>
    requires conditions { conditions ≤ 5 }
    requires widths { HasWidths greatest.now planned.now }
    ensures { OnOk result (lines.new.items ≡ lines.old.items ++ year_text conditions greatest.now year planned.now) }
{
    push_chosen(year, &planned.config, lines)?;
    push_edges(year, greatest, &planned.tunnel, &planned.config, lines)?;
    push_terms(year, &planned.built, &planned.ran, lines)?;
    push_risk(year, &planned.row, lines)?;
    push_shorts(conditions, year, &planned.row, lines)?;
    push_generations(year, planned.generations.as_slice(), lines)
}
