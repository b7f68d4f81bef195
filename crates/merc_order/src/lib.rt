//! The order of goals: definitions and laws.
#![tactic(auto)]

pub mod laws;
