//! Kinds of name: extension numbers and room labels.
#![tactic(auto)]

pub mod extension;
pub mod name;
pub mod room_label;

pub use extension::Extension;
pub use name::Name;
pub use room_label::RoomLabel;
