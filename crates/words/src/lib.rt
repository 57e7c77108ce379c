//! Plans, plan records and the words of cards.
#![tactic(auto)]

pub mod code;
pub mod laws;
pub mod plan;
pub mod record;
pub mod word;

pub use code::Code;
pub use plan::Plan;
pub use record::{NameKind, PlanRecord};
pub use word::{place_and_symbol, same_order, slot, symbol, write_word};
