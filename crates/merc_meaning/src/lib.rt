//! What ordered goals mean: definitions and laws.
#![tactic(auto)]

pub mod laws;
