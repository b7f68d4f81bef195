//! Runs of goals: the lines of each are written as its answers come.
#![tactic(auto)]

mod lines;
mod solving;

pub use solving::{Ready, run};
