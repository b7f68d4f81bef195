//! What is told of the answers of a run while it goes on.
#![tactic(auto)]

pub mod laws;
mod telling;

pub use telling::tell;
