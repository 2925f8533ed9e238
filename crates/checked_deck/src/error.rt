//! Why a deck is not taken.
ghost use Rattle.checked_deck.specs.declared.error.CheckError.TheVariants.{OutOfMemory};
ghost use Rattle.std.specs.Prelude.{◌≡◌};

use deck_check::DeckFault;
use std::alloc::{AllocError, AllocFailed};
use thiserror::Error;

/// Why a deck is not taken.
#[derive(Debug, Drop, Error)]
pub enum CheckError {
    #[error("out of memory")]
    OutOfMemory,
    #[error("{0:?}")]
    Fault(DeckFault),
}

impl From<AllocError> for CheckError {
    ghost from_gives = { λ _ e. e ≡ OutOfMemory };

    fn from(_: AllocError) -> CheckError {
        CheckError::OutOfMemory
    }
}

impl<T: Drop> From<AllocFailed<T>> for CheckError {
    ghost from_gives = { λ _ e. e ≡ OutOfMemory };

    fn from(_: AllocFailed<T>) -> CheckError {
        CheckError::OutOfMemory
    }
}
