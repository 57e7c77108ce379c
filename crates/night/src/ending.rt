//! Why the night ends early.
use faults::Fault;
use std::io;
use thiserror::Error;

/// Why the night ends early.
#[derive(Debug, Drop, Error)]
pub(crate) enum Ending {
    /// something is refused that should not be
    #[error(transparent)]
    Refused(#[from] Fault),
    /// the output fails
    #[error(transparent)]
    Broken(#[from] io::Error),
}
