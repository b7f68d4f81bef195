//! The machine that runs compiled code.
#![tactic(auto)]

mod answering;
mod branching;
mod calling;
mod combined;
mod conditions;
mod controlling;
pub mod machine;
pub mod meeting;
mod results;
pub mod running;
mod stepping;
mod trying;

pub use machine::Machine;
pub use running::{Stop, Ticks};
