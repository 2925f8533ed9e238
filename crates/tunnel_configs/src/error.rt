//! Why the configurations of a year are not listed.
ghost use Rattle.std.specs.Prelude.{◌≡◌};
ghost use Rattle.tunnel_configs.specs.declared.error.ConfigsError.TheVariants.{OutOfMemory};

use std::alloc::{AllocError, AllocFailed};
use thiserror::Error;

/// Why the configurations of a year are not listed.
#[derive(Debug, Drop, Error)]
pub enum ConfigsError {
    #[error("out of memory")]
    OutOfMemory,
    /// The tunnel has this number of configurations, above 1,000,000.
    #[error("{0} configurations in the tunnel")]
    TooWide(u64),
    /// The tunnel is within its limit, and this number of its configurations, above 500, meet the margins.
    #[error("{0} configurations between the margins")]
    TooMany(u64),
}

impl From<AllocError> for ConfigsError {
    ghost from_gives = { λ _ e. e ≡ OutOfMemory };

    fn from(_: AllocError) -> ConfigsError {
        ConfigsError::OutOfMemory
    }
}

impl<T: Drop> From<AllocFailed<T>> for ConfigsError {
    ghost from_gives = { λ _ e. e ≡ OutOfMemory };

    fn from(_: AllocFailed<T>) -> ConfigsError {
        ConfigsError::OutOfMemory
    }
}
