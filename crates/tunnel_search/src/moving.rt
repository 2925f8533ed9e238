//! The tunnel behind a chosen configuration.
ghost use Rattle.std.specs.Prelude.{◌≡◌, ◌+◌, ◌<◌, ◌≤◌, ◌↔◌, IsTrue, length, slice_index};
ghost use Rattle.plant_data.specs.Tunnels.{IsTunnelOf};
ghost use Rattle.report_text.specs.Marks.{is_lower, is_upper};
ghost use Rattle.tunnel_configs.specs.Listed.{IsInTunnel};
ghost use Rattle.tunnel_search.specs.Search.{IsInside, moved_at, moved_pair, moved_tunnel};

use plant_data::{Config, MAX_COUNT, Tunnel};

/// At which edges of its tunnel a count stands.
#[derive(Clone, Copy, Debug, PartialEq, Eq)]
struct Edges {
    /// Whether it is at the upper edge, and this may be moved up.
    upper: bool,
    /// Whether it is at the lower edge, and this may be moved down.
    lower: bool,
}

/// At which edges the count of the candidate at place `k` stands.
fn edges_at(tunnel: &Tunnel, chosen: &Config, greatest: &Config, k: usize) -> Edges
    requires within { k < length chosen.now }
    requires tunnel { IsTunnelOf greatest.now tunnel.now }
    requires chosen { IsInTunnel tunnel.now chosen.now }
    ensures upper { result.upper ≡ is_upper (slice_index tunnel.now.least k) (slice_index tunnel.now.width k)
        (slice_index greatest.now k) (slice_index chosen.now k) }
    ensures lower { result.lower ≡ is_lower (slice_index tunnel.now.least k) (slice_index chosen.now k) }
{
    let least = tunnel.least.get(k);
    let count = chosen.get(k);
    Edges {
        upper: count == least + tunnel.width.get(k) && count < greatest.get(k),
        lower: count == least && count > 0,
    }
}

/// The least count and the width of a candidate behind its mark: an edge moves by one unit, and a tunnel without a
/// width gets one.
fn moved_pair(edges: Edges, least: u64, width: u64) -> (u64, u64)
    requires least { least ≤ MAX_COUNT }
    requires lower { IsTrue edges.lower → 1 ≤ least }
    ensures least { result.0 ≡ (moved_pair edges.upper edges.lower least width).0 }
    ensures width { result.1 ≡ (moved_pair edges.upper edges.lower least width).1 }
{
    if edges.upper && edges.lower {
        return (least - 1, 2);
    }
    if edges.upper {
        return if width == 0 {
            (least, 1)
        } else {
            (least + 1, width)
        };
    }
    if edges.lower {
        return (least - 1, if width == 0 { 1 } else { width });
    }
    (least, width)
}

/// The least count and the width of the candidate at place `k` behind a chosen configuration.
fn moved_at(tunnel: &Tunnel, chosen: &Config, greatest: &Config, k: usize) -> (u64, u64)
    requires within { k < length chosen.now }
    requires tunnel { IsTunnelOf greatest.now tunnel.now }
    requires chosen { IsInTunnel tunnel.now chosen.now }
    ensures least { result.0 ≡ (moved_at greatest.now tunnel.now chosen.now k).0 }
    ensures width { result.1 ≡ (moved_at greatest.now tunnel.now chosen.now k).1 }
    ensures small { result.0 + result.1 ≤ MAX_COUNT }
{
    // Its reading tells the proof that the greatest count is small.
    let _greatest = greatest.get(k);
    let edges = edges_at(tunnel, chosen, greatest, k);
    moved_pair(edges, tunnel.least.get(k), tunnel.width.get(k))
}

/// The tunnel of a year behind a round that chose a configuration in it: where a count stands at an edge that may be
/// moved, the edge moves by one unit. It takes no memory.
pub fn moved(tunnel: &Tunnel, chosen: &Config, greatest: &Config) -> Tunnel
    requires tunnel { IsTunnelOf greatest.now tunnel.now }
    requires chosen { IsInTunnel tunnel.now chosen.now }
    ensures value { result ≡ moved_tunnel greatest.now tunnel.now chosen.now }
    ensures fits { IsTunnelOf greatest.now result }
    ensures contains { IsInTunnel result chosen.now }
{
    let mut least = Config::zero(chosen.width());
    let mut width = Config::zero(chosen.width());
    for k in 0..chosen.width() {
        let (low, wide) = moved_at(tunnel, chosen, greatest, k);
        least.set(k, low);
        width.set(k, wide);
    }
    Tunnel { least, width }
}

/// Whether no count of a chosen configuration stands at an edge that may be moved.
pub fn is_inside(tunnel: &Tunnel, chosen: &Config, greatest: &Config) -> bool
    requires tunnel { IsTunnelOf greatest.now tunnel.now }
    requires chosen { IsInTunnel tunnel.now chosen.now }
    ensures { IsTrue result ↔ IsInside greatest.now tunnel.now chosen.now }
{
    for k in 0..chosen.width() {
        let edges = edges_at(tunnel, chosen, greatest, k);
        if edges.upper || edges.lower {
            return false;
        }
    }
    true
}
