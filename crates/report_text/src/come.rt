//! The lines of the costs-to-come.
ghost use Rattle.std.specs.Prelude.{◌≡◌, ◌++◌, OnOk, length};
ghost use Rattle.plan_program.specs.CostToCome.{AreCostsToCome};
ghost use Rattle.report_text.specs.Report.{come_line, come_lines, come_text};

use crate::numbers::push_counts;
use cost_terms::{CaseTable, Scored};
use plant_data::{Config, Listed};
use wasp_fixed::OutOfMemory;

/// Appends the line of an accepted configuration.
fn push_come(
    year: u64,
    config: &Config,
    cost: Option<u64>,
    lines: &mut Vec<u8>,
) -> Result<(), OutOfMemory>
    ensures { OnOk result (lines.new.items ≡ lines.old.items ++ come_line year config.now cost) }
{
    let head = format!(in *lines.allocator(); "COME {year}")?;
    lines.extend_from_slice(head.as_bytes())?;
    push_counts(config, lines)?;
    match cost {
        Some(cost) => {
            let tail = format!(in *lines.allocator(); " {cost}\n")?;
            lines.extend_from_slice(tail.as_bytes())?;
            Ok(())
        }
        None => {
            lines.extend_from_slice(b" NONE\n")?;
            Ok(())
        }
    }
}

/// Appends the lines of a year's accepted configurations.
fn push_comes(
    year: u64,
    layer: &[Scored],
    come: &[Option<u64>],
    lines: &mut Vec<u8>,
) -> Result<(), OutOfMemory>
    requires { length come.now ≡ length layer.now }
    ensures { OnOk result (lines.new.items ≡ lines.old.items ++ come_lines year layer.now come.now) }
{
    for i in 0..layer.len() {
        push_come(year, &layer[i].config, come[i], lines)?;
    }
    Ok(())
}

/// Appends the lines of all years.
pub(crate) fn push_all_comes(
    table: &CaseTable,
    come: &[Listed<Option<u64>>],
    lines: &mut Vec<u8>,
) -> Result<(), OutOfMemory>
    requires { AreCostsToCome table.now come.now }
    ensures { OnOk result (lines.new.items ≡ lines.old.items ++ come_text table.now come.now) }
{
    let layers = table.layers();
    for k in 0..layers.len() {
        push_comes(k as u64 + 1, layers[k].entries(), come[k].as_slice(), lines)?;
    }
    Ok(())
}
