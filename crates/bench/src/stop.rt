//! Why the bench stops before the end of its input.
use faults::Fault;
use std::io;
use thiserror::Error;

/// Why the bench stops before the end of its input.
#[derive(Debug, Drop, Error)]
pub(crate) enum Stop {
    /// what the input holds is refused
    #[error(transparent)]
    Refused(#[from] Fault),
    /// the input or the output fails
    #[error(transparent)]
    Broken(#[from] io::Error),
}
