//! The tunnels of all years behind a round.
ghost use Rattle.std.specs.Prelude.{◌≡◌, ◌↔◌, All, IfOk, IsTrue};
ghost use Rattle.plant_data.specs.Tunnels.{IsTunnelOf};
ghost use Rattle.tunnel_search.specs.Search.{AreInside, ArePlaced, moved_tunnels};

use crate::moving::{is_inside, moved};
use plant_data::{Config, Tunnel};
use std::alloc::Global;
use wasp_fixed::OutOfMemory;

/// The tunnels of the years behind a round that chose a configuration in each.
pub fn moved_tunnels(
    alloc: Global,
    greatest: &Config,
    tunnels: &[Tunnel],
    configs: &[Config],
) -> Result<Vec<Tunnel>, OutOfMemory>
    requires { ArePlaced greatest.now tunnels.now configs.now }
    ensures value { IfOk result (λ next. next.items ≡ moved_tunnels greatest.now tunnels.now configs.now) }
    ensures fit { IfOk result (λ next. All (IsTunnelOf greatest.now) next.items) }
{
    let mut next = Vec::new(alloc);
    for k in 0..tunnels.len() {
        next.push(moved(&tunnels[k], &configs[k], greatest))?;
    }
    Ok(next)
}

/// Whether no chosen configuration of any year stands at an edge that may be moved.
pub fn are_inside(greatest: &Config, tunnels: &[Tunnel], configs: &[Config]) -> bool
    requires { ArePlaced greatest.now tunnels.now configs.now }
    ensures { IsTrue result ↔ AreInside greatest.now tunnels.now configs.now }
{
    for k in 0..tunnels.len() {
        if !is_inside(&tunnels[k], &configs[k], greatest) {
            return false;
        }
    }
    true
}
