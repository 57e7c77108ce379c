//! Lines: rows of slots, each standing or clear.
//!
//! Whatever shows the meaning of a [`Line`] is one. The kinds of line of this crate nest in any way and depth, by value
//! and over a lent line, and a line over others gives them back.
#![tactic(auto)]

pub mod clear;
pub mod inverted;
pub mod junction;
pub mod level;
pub mod line;
pub mod packed;
pub mod stride;

pub use clear::drop_all;
pub use inverted::Inverted;
pub use junction::Junction;
pub use level::Level;
pub use line::Line;
pub use packed::Packed;
pub use stride::Stride;
