//! Why a line is outside the grammar.
ghost use Rattle.std.specs.Prelude.{◌≡◌};
ghost use Rattle.deck_lines.specs.declared.fault.LineError.TheVariants.{OutOfMemory};

use std::alloc::{AllocError, AllocFailed};
use thiserror::Error;

/// What is wrong with a line, in the order in which faults are looked for. The first two and the last
/// are found by the reader of a script.
#[derive(Clone, Copy, Debug, PartialEq, Eq)]
pub enum LineKind {
    /// The input ended without END.
    NoEnd,
    /// The line is the 100,001st.
    ManyLines,
    /// More than 4,096 bytes, a carriage return counted.
    Long,
    /// A byte that is no space, tab or 33 to 126, in a line that is not blank.
    Byte,
    /// The first word, or the head word after DROP, is unknown or not allowed in the mode.
    Word,
    /// A word is missing or too many.
    Count,
    /// A number or a name is due, and the word is none.
    Number,
    /// A number is out of its range.
    Range,
    /// The 65th PLAN or the 65th CHECK line.
    Many,
}

/// A fault, and where it stands.
#[derive(Clone, Copy, Debug, PartialEq, Eq)]
pub struct LineFault {
    pub kind: LineKind,
    /// Counted in bytes from 1; a missing word is looked for one past the end of the line.
    pub column: u64,
}

/// Why a line is not read.
#[derive(Debug, Drop, Error)]
pub enum LineError {
    #[error("out of memory")]
    OutOfMemory,
    #[error("{0:?}")]
    Fault(LineFault),
}

impl LineError {
    pub(crate) fn at(kind: LineKind, column: usize) -> LineError
        ensures { result ≡ LineError.Fault (record { kind = kind; column = column }) }
    {
        LineError::Fault(LineFault {
            kind,
            column: column as u64,
        })
    }
}

impl From<AllocError> for LineError {
    ghost from_gives = { λ _ e. e ≡ OutOfMemory };

    fn from(_: AllocError) -> LineError {
        LineError::OutOfMemory
    }
}

impl<T: Drop> From<AllocFailed<T>> for LineError {
    ghost from_gives = { λ _ e. e ≡ OutOfMemory };

    fn from(_: AllocFailed<T>) -> LineError {
        LineError::OutOfMemory
    }
}
