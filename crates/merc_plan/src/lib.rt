//! What parallel conjuncts have and do: plans of sites, the courses of branches, and their scripts.
#![tactic(auto)]

pub mod laws;
pub mod plan;

pub use plan::Plan;
