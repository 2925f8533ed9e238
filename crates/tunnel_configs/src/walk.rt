//! The configurations of a tunnel in rising order, one after the other.
ghost use Rattle.std.specs.Prelude.{◌≡◌, ℕ, ◌+◌, ◌<◌, ◌≤◌, ◌^◌, IfSome, length, slice_index, Some, None, IsTrue, IsFalse};
ghost use Rattle.plant_data.specs.Tunnels.{IsTunnelOf};
ghost use Rattle.tunnel_configs.specs.Listed.{IsInTunnel, box_size};
ghost use Rattle.tunnel_configs.specs.Neighbours.{IsLast, IsNext, left};
ghost use Rattle.year_system.specs.System.{greatest};

use plant_data::{Config, Tunnel};
use year_system::YearSystem;

/// The number of configurations of a tunnel.
pub fn box_size(system: &YearSystem, tunnel: &Tunnel) -> u64
    requires { IsTunnelOf (greatest system.now) tunnel.now }
    ensures value { result ≡ box_size tunnel.now }
{
    let width = system.width();
    let mut size = 1;
    for k in 0..width {
        size *= tunnel.width.get(width - 1 - k) + 1;
    }
    size
}

/// The last place whose count can grow within the tunnel.
fn last_open(tunnel: &Tunnel, config: &Config) -> Option<usize>
    requires in_tunnel { IsInTunnel tunnel.now config.now }
    requires width { length tunnel.now.width ≡ length tunnel.now.least }
    ensures place { IfSome result (λ k. k < 14) }
    ensures room { IfSome result (λ k. (k < length config.now) × (slice_index config.now k < slice_index tunnel.now.least k + slice_index tunnel.now.width k)) }
    ensures full { IfSome result (λ k. (i : ℕ) → k < i → i < length config.now → slice_index config.now i ≡ slice_index tunnel.now.least i + slice_index tunnel.now.width i) }
    ensures none { result ≡ None → (i : ℕ) → i < length config.now → slice_index config.now i ≡ slice_index tunnel.now.least i + slice_index tunnel.now.width i }
{
    let mut k = config.width();
    while k > 0 {
        k -= 1;
        if config.get(k) < tunnel.least.get(k) + tunnel.width.get(k) {
            return Some(k);
        }
    }
    None
}

/// Puts the least counts in the places from `from` on.
fn reset_from(tunnel: &Tunnel, from: usize, config: &mut Config)
    requires width { length config.old ≡ length tunnel.now.least }
    ensures width { length config.new ≡ length config.old }
    ensures before { (i : ℕ) → i < from → slice_index config.new i ≡ slice_index config.old i }
    ensures after { (i : ℕ) → from ≤ i → slice_index config.new i ≡ slice_index tunnel.now.least i }
{
    for k in from..config.width() {
        config.set(k, tunnel.least.get(k));
    }
}

/// Goes on to the tunnel's next configuration, or answers that there is none.
pub fn advance(tunnel: &Tunnel, config: &mut Config) -> bool
    requires within { IsInTunnel tunnel.now config.old }
    requires width { length tunnel.now.width ≡ length tunnel.now.least }
    requires small { (k : ℕ) → k < length tunnel.now.least → slice_index tunnel.now.least k + slice_index tunnel.now.width k ≤ 128 }
    ensures next { IsTrue result → IsNext tunnel.now config.old config.new }
    ensures left { IsTrue result → left tunnel.now config.new < left tunnel.now config.old }
    ensures last { IsFalse result → IsLast tunnel.now config.old }
{
    let Some(k) = last_open(tunnel, config) else {
        return false;
    };
    config.set(k, config.get(k) + 1);
    reset_from(tunnel, k + 1, config);
    true
}
