//! Finite fields by their tables of sums and products.
//!
//! [`Field`] says what a field is; [`Prime`] and [`Binary`] are the two kinds that an exchange uses, and [`AnyField`]
//! is a field of either kind.
#![tactic(auto)]

pub mod any;
pub mod binary;
mod elements;
pub mod field;
pub mod laws;
pub mod prime;

pub use any::{AnyField, FieldChoice};
pub use binary::Binary;
pub use field::Field;
pub use prime::Prime;
