//! Last calls of compiled code keep no frame: what this changes, and that it changes no run.
#![tactic(auto)]

pub mod laws;
