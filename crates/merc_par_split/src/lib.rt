//! The split tree: where parallel conjuncts wait for values and signal them, and the sites at which they are forked.
#![tactic(auto)]

pub mod laws;
mod members;
mod placing;
pub mod program;
pub mod splitting;
mod tasks;

pub use program::Split;
pub use splitting::split;
