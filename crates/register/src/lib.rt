//! The register of cards: names and their numbers, the frame in which cards speak, and what a line says of them.
#![tactic(auto)]

pub mod frame;
pub mod laws;
pub mod register;
mod text;
pub mod verdict;

pub use frame::{Frame, Refused};
pub use register::Register;
pub use verdict::Verdict;
