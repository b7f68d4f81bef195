//! Compiled code of ordered goals.
#![tactic(auto)]

mod arms;
mod basics;
mod forked;
mod generating;
pub mod laws;
mod program;
mod quiet;
mod singles;
mod suffix;
mod tasks;
mod trees;
mod variables;
mod walking;

pub use generating::generate_goal;
pub use program::generate;
pub use singles::Singles;
