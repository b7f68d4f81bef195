//! What ordered goals do beside others: courses, by definition, with their laws.
#![tactic(auto)]

pub mod laws;
