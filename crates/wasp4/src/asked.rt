//! What a run is asked for.
ghost use Rattle.std.specs.Prelude.{◌≡◌};
ghost use Rattle.wasp4.specs.Out as spec;

use wasp_session::Command;

/// What a run is asked for, of a script.
#[derive(Clone, Copy, Debug, PartialEq, Eq)]
pub enum Asked {
    /// To plan by the first so many engines.
    Plan(usize),
    /// To check certificates, by the first engine.
    Check,
    /// To search tunnels, by the first engine.
    Search,
    /// To rank the first so many plans, by the first engine.
    Best(u64),
}

impl Asked {
    /// The command.
    pub(crate) fn command(self) -> Command
        ensures { result ≡ spec.command_of self }
    {
        match self {
            Asked::Plan(_) => Command::Plan,
            Asked::Check => Command::Check,
            Asked::Search => Command::Search,
            Asked::Best(plans) => Command::Best(plans),
        }
    }

    /// How many engines work.
    pub(crate) fn engines(self) -> usize
        ensures { result ≡ spec.used self }
    {
        match self {
            Asked::Plan(engines) => engines,
            Asked::Check | Asked::Search | Asked::Best(_) => 1,
        }
    }
}
