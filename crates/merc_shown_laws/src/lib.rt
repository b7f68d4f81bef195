//! Laws of the runs that roots show: what an accepted goal does beside others, along its script, is its strict sequential
//! run.
#![tactic(auto)]

pub mod laws;
