//! Laws of machines that run the code of accepted goals: where they meet others they stand at their scripts.
#![tactic(auto)]

pub mod laws;
