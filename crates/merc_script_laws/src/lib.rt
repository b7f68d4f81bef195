//! Laws of the scripts of accepted goals: they are well formed, and joining them gives the run.
#![tactic(auto)]

pub mod laws;
