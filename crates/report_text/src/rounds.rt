//! What a search says of the rounds of a case.
ghost use Rattle.std.specs.Prelude.{◌≡◌, ◌<◌, ◌++◌, OnErr, OnOk, length};
ghost use Rattle.report_text.specs.Lines.{texts};
ghost use Rattle.report_text.specs.Ranking.{chosen_lines};
ghost use Rattle.report_text.specs.Rounds.{AreWide, IsWritable, barred_line, case_line, found_lines, found_text, inside_line, pair_words, round_line, rounds_line, tunnel_line, tunnel_lines};

use crate::year::push_chosen;
use plant_data::{Config, Listed, Tunnel};
use wasp_fixed::OutOfMemory;

/// A round of a case with a plan.
#[derive(Drop)]
pub struct Found {
    /// Its tunnels, one a year.
    pub tunnels: Listed<Tunnel>,
    /// The configurations of its plan, one a year.
    pub configs: Listed<Config>,
    /// The cost of its plan, in dollars of present worth.
    pub total: u64,
}

/// Appends the line `CASE case`, which begins what a search says of a case. After `OutOfMemory` the text is as before.
pub fn write_case_line(case: u64, text: &mut Vec<u8>) -> Result<(), OutOfMemory>
    ensures appended { OnOk result (text.new.items ≡ text.old.items ++ case_line case) }
    ensures kept { OnErr result (text.new.items ≡ text.old.items) }
{
    let line = format!(in *text.allocator(); "CASE {case}\n")?;
    text.extend_from_slice(line.as_bytes())?;
    Ok(())
}

/// Appends the line `ROUND round total`: a round, from 1, with the cost of its plan in dollars of present worth. After
/// `OutOfMemory` the text is as before.
pub fn write_round(round: u64, total: u64, text: &mut Vec<u8>) -> Result<(), OutOfMemory>
    ensures appended { OnOk result (text.new.items ≡ text.old.items ++ round_line round total) }
    ensures kept { OnErr result (text.new.items ≡ text.old.items) }
{
    let line = format!(in *text.allocator(); "ROUND {round} {total}\n")?;
    text.extend_from_slice(line.as_bytes())?;
    Ok(())
}

/// Appends the line `INFEASIBLE year`: no plan under the tunnels of a round reaches the year. After `OutOfMemory` the
/// text is as before.
pub fn write_barred(year: u64, text: &mut Vec<u8>) -> Result<(), OutOfMemory>
    ensures appended { OnOk result (text.new.items ≡ text.old.items ++ barred_line year) }
    ensures kept { OnErr result (text.new.items ≡ text.old.items) }
{
    let line = format!(in *text.allocator(); "INFEASIBLE {year}\n")?;
    text.extend_from_slice(line.as_bytes())?;
    Ok(())
}

/// Appends the line `INSIDE`: no chosen configuration stands at an edge that may be moved. After `OutOfMemory` the text
/// is as before.
pub fn write_inside(text: &mut Vec<u8>) -> Result<(), OutOfMemory>
    ensures appended { OnOk result (text.new.items ≡ text.old.items ++ inside_line) }
    ensures kept { OnErr result (text.new.items ≡ text.old.items) }
{
    text.extend_from_slice(b"INSIDE\n")?;
    Ok(())
}

/// Appends the line `ROUNDS`: there is no round to come. After `OutOfMemory` the text is as before.
pub fn write_rounds_end(text: &mut Vec<u8>) -> Result<(), OutOfMemory>
    ensures appended { OnOk result (text.new.items ≡ text.old.items ++ rounds_line) }
    ensures kept { OnErr result (text.new.items ≡ text.old.items) }
{
    text.extend_from_slice(b"ROUNDS\n")?;
    Ok(())
}

/// Appends the least count and the width of the candidate at place `k`.
fn push_pair(tunnel: &Tunnel, k: usize, lines: &mut Vec<u8>) -> Result<(), OutOfMemory>
    requires least { k < length tunnel.now.least }
    requires width { length tunnel.now.width ≡ length tunnel.now.least }
    ensures { OnOk result (lines.new.items ≡ lines.old.items ++ pair_words tunnel.now k) }
{
    let least = tunnel.least.get(k);
    let width = tunnel.width.get(k);
    let pair = format!(in *lines.allocator(); " {least} {width}")?;
    lines.extend_from_slice(pair.as_bytes())?;
    Ok(())
}

/// Appends the pairs of a tunnel.
fn push_pairs(tunnel: &Tunnel, lines: &mut Vec<u8>) -> Result<(), OutOfMemory>
    requires { length tunnel.now.width ≡ length tunnel.now.least }
    ensures { OnOk result (lines.new.items ≡ lines.old.items ++ texts (length tunnel.now.least) (pair_words tunnel.now)) }
{
    for k in 0..tunnel.least.width() {
        push_pair(tunnel, k, lines)?;
    }
    Ok(())
}

/// Appends the line of a tunnel.
fn push_tunnel(
    case: u64,
    year: u64,
    tunnel: &Tunnel,
    lines: &mut Vec<u8>,
) -> Result<(), OutOfMemory>
    requires { length tunnel.now.width ≡ length tunnel.now.least }
    ensures { OnOk result (lines.new.items ≡ lines.old.items ++ tunnel_line case year tunnel.now) }
{
    let head = format!(in *lines.allocator(); "TUNNEL {case} {year}")?;
    lines.extend_from_slice(head.as_bytes())?;
    push_pairs(tunnel, lines)?;
    lines.extend_from_slice(b"\n")?;
    Ok(())
}

/// Appends the lines of the tunnels, one a year.
fn push_tunnels(case: u64, tunnels: &[Tunnel], lines: &mut Vec<u8>) -> Result<(), OutOfMemory>
    requires { AreWide tunnels.now }
    ensures { OnOk result (lines.new.items ≡ lines.old.items ++ tunnel_lines case tunnels.now) }
{
    for k in 0..tunnels.len() {
        push_tunnel(case, k as u64 + 1, &tunnels[k], lines)?;
    }
    Ok(())
}

/// Appends the lines of the configurations, one a year.
fn push_configs(configs: &[Config], lines: &mut Vec<u8>) -> Result<(), OutOfMemory>
    ensures { OnOk result (lines.new.items ≡ lines.old.items ++ chosen_lines configs.now) }
{
    for k in 0..configs.len() {
        push_chosen(k as u64 + 1, &configs[k], lines)?;
    }
    Ok(())
}

/// Appends the lines of a round with a plan.
fn push_found(case: u64, found: &Found, lines: &mut Vec<u8>) -> Result<(), OutOfMemory>
    requires { AreWide found.now.tunnels }
    ensures { OnOk result (lines.new.items ≡ lines.old.items ++ found_lines case found.now) }
{
    push_tunnels(case, found.tunnels.as_slice(), lines)?;
    push_configs(found.configs.as_slice(), lines)?;
    let total = found.total;
    let tail = format!(in *lines.allocator(); "TOTAL {total}\n")?;
    lines.extend_from_slice(tail.as_bytes())?;
    Ok(())
}

/// Appends the tunnels, the plan and the cost of the last round of a case that had a plan: nothing where none had one.
/// After `OutOfMemory` the text is as before.
pub fn write_found(case: u64, found: &Option<Found>, text: &mut Vec<u8>) -> Result<(), OutOfMemory>
    requires { IsWritable found.now }
    ensures appended { OnOk result (text.new.items ≡ text.old.items ++ found_text case found.now) }
    ensures kept { OnErr result (text.new.items ≡ text.old.items) }
{
    let Some(found) = found else {
        return Ok(());
    };
    let mut lines = Vec::new(*text.allocator());
    push_found(case, found, &mut lines)?;
    text.extend_from_slice(&lines)?;
    Ok(())
}
