//! Refusals, and the figures that they carry.
//!
//! Every call of the reader that cannot do what it is asked answers a [`Fault`]: which rule refused, and the
//! figure that tells what was wrong.
#![tactic(auto)]

pub mod fault;
pub mod refusal;

pub use fault::{Fault, refuse_unless};
pub use refusal::Refusal;
