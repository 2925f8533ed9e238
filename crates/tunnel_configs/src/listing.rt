//! The listed configurations of a year.
ghost use Rattle.std.specs.Prelude.{◌≡◌, ℕ, ◌+◌, ◌<◌, ◌≤◌, ◌++◌, [], ◌∷◌, All, IfOk, OnOk, IsErrOf, length, take};
ghost use Rattle.plant_data.specs.Tunnels.{IsTunnelOf};
ghost use Rattle.tunnel_configs.specs.Listed.{HasListing, IsListing, ListingsAreOne, ListingsFit, box_size};
ghost use Rattle.tunnel_configs.specs.Neighbours.{Considered, IsGathered};
ghost use Rattle.year_system.specs.System.{Fits, IsLoad, greatest};
ghost use Rattle.tunnel_configs.specs.declared.error.ConfigsError.TheVariants.{TooMany, TooWide};

use crate::error::ConfigsError;
use crate::margin::meets_margin;
use crate::walk::{advance, box_size};
use plant_data::{Config, Load, Margin, Tunnel};
use std::alloc::{AllocError, Global};
use year_system::YearSystem;

/// The greatest number of configurations of a tunnel.
const MAX_BOX: u64 = 1_000_000;

/// The greatest number of listed configurations.
const MAX_LISTED: u64 = 500;

/// Keeps a configuration where fewer than 500 are kept.
#[tactic(auto, using(crate::proofs::Risings::take_whole, std::proofs::lemmas::List::take_all))]
fn keep(config: Config, configs: &mut Vec<Config>) -> Result<(), AllocError>
    requires { length configs.old.items ≤ MAX_LISTED }
    ensures { OnOk result (configs.new.items ≡ take MAX_LISTED (configs.old.items ++ config ∷ [])) }
{
    if configs.len() as u64 == MAX_LISTED {
        return Ok(());
    }
    configs.push(config)?;
    Ok(())
}

/// Counts a configuration that meets the margins, and keeps it where fewer than 500 are kept. Answers the count.
fn consider(
    system: &YearSystem,
    loads: &[Load],
    margin: &Margin,
    config: &Config,
    count: u64,
    configs: &mut Vec<Config>,
) -> Result<u64, AllocError>
    requires fits { Fits system.now config.now }
    requires loads { loads.now ≡ system.now.loads }
    requires periods { 1 ≤ length loads.now }
    requires peaks { All IsLoad loads.now }
    requires low { margin.now.low ≤ 100000 }
    requires high { margin.now.high ≤ 100000 }
    requires count { count < MAX_BOX }
    requires kept { length configs.old.items ≤ MAX_LISTED }
    ensures { IfOk result (λ n. Considered system.now margin.now config.now count configs.old.items n configs.new.items) }
{
    if !meets_margin(system, loads, margin, config) {
        return Ok(count);
    }
    keep(*config, configs)?;
    Ok(count + 1)
}

#[tactic(auto, using(crate::proofs::Gathered::found_few, crate::proofs::Boxes::left_pos, crate::proofs::Sizes::in_tunnel_fits))]
/// Goes through the tunnel, from the least configuration on: how many meet the margins, and the first 500.
fn gather(
    system: &YearSystem,
    tunnel: &Tunnel,
    margin: &Margin,
    configs: &mut Vec<Config>,
) -> Result<u64, AllocError>
    requires tunnel { IsTunnelOf (greatest system.now) tunnel.now }
    requires low { margin.now.low ≤ 100000 }
    requires high { margin.now.high ≤ 100000 }
    requires small { box_size tunnel.now ≤ MAX_BOX }
    requires empty { configs.old.items ≡ [] }
    ensures { IfOk result (λ n. IsGathered system.now tunnel.now margin.now n configs.new.items) }
{
    let loads = system.loads();
    let mut count = 0;
    let mut config = tunnel.least;
    loop {
        count = consider(system, loads, margin, &config, count, configs)?;
        if !advance(tunnel, &mut config) {
            return Ok(count);
        }
    }
}

#[tactic(auto, using(crate::proofs::Gathered::gathered_whole, crate::proofs::Gathered::gathered_few, crate::proofs::Gathered::gathered_many))]
/// The configurations of a year's tunnel whose installed capacity lies between the margins in the critical
/// period, each once, in rising order, as lists of counts.
///
/// `TooWide` comes where the tunnel has more than 1,000,000 configurations, and then nothing else is looked
/// at. `TooMany` comes where more than 500 of them meet the margins. Each tells how many there are.
pub fn configs(
    alloc: Global,
    system: &YearSystem,
    tunnel: &Tunnel,
    margin: &Margin,
) -> Result<Vec<Config>, ConfigsError>
    requires tunnel { IsTunnelOf (greatest system.now) tunnel.now }
    requires low { margin.now.low ≤ 100000 }
    requires high { margin.now.high ≤ 100000 }
    ensures value { IfOk result (λ configs. IsListing system.now tunnel.now margin.now configs.items) }
    ensures few { IfOk result (λ configs. length configs.items ≤ 500) }
    ensures narrow { OnOk result (box_size tunnel.now ≤ 1000000) }
    ensures wide { (n : ℕ) → IsErrOf result (TooWide n) → (box_size tunnel.now ≡ n) × (1000000 < n) }
    ensures many { (n : ℕ) → IsErrOf result (TooMany n) → (500 < n) × HasListing system.now tunnel.now margin.now n }
    ensures many_narrow { (n : ℕ) → IsErrOf result (TooMany n) → box_size tunnel.now ≤ 1000000 }
{
    let size = box_size(system, tunnel);
    if size > MAX_BOX {
        return Err(ConfigsError::TooWide(size));
    }
    let mut configs = Vec::new(alloc);
    let count = gather(system, tunnel, margin, &mut configs)?;
    if count > MAX_LISTED {
        return Err(ConfigsError::TooMany(count));
    }
    Ok(configs)
}

/// The law that there is one listing at most: the configurations of the list are the same, in the same
/// order, whatever made it.
pub fn listings_are_one()
    ensures { ListingsAreOne }
{}

/// The law that a listing has no more configurations than its tunnel.
pub fn listings_fit()
    ensures { ListingsFit }
{}
