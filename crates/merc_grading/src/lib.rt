//! Switches and determinism categories of ordered goals: definitions and laws, the category of a goal that joins others, and the
//! symbols of a type.
#![tactic(auto)]

pub mod categories;
pub mod laws;
pub mod symbols;
