//! Scripts of branches that run side by side, the outcomes that they end with, and how outcomes are joined.
#![tactic(auto)]

pub mod cells;
pub mod items;
pub mod joining;
pub mod load;
pub mod outcome;
pub mod script;

pub use cells::{CellId, Move, ScriptCell};
pub use items::{Fork, Item};
pub use joining::{join, join_next};
pub use load::Load;
pub use outcome::Outcome;
pub use script::Script;
