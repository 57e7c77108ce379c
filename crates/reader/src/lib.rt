//! Reads which cards spoke on a line.
#![tactic(auto)]

mod bases;
mod covered;
pub mod laws;
mod pairs;
pub mod reading;
mod row;
mod spot;
mod tables;
pub mod verdict;

pub use reading::{has_slots, read, ready};
pub use verdict::Verdict;
