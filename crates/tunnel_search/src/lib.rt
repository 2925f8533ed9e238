//! Tunnels that move: where a chosen configuration stands at an edge of its tunnel.
//!
//! Planners of WASP-IV move the tunnels of CONGEN by hand, by the signs that REPROBAT prints beside the optimum; this is
//! the rule by which a search moves them. It stands on `report_text` for the marks and on `tunnel_configs` for what a
//! tunnel contains. The contract that the layer above uses: `moved` is the tunnel that the marks say, it is within the
//! greatest counts, and it contains the chosen configuration; `is_inside` says whether each mark is a dot. The rule for
//! each mark is this program's own.
#![tactic(auto)]

mod moving;
mod rounds;

pub use moving::{is_inside, moved};
pub use rounds::{are_inside, moved_tunnels};
