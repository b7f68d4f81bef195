//! The order of a goal from what is bound, written out.
#![tactic(auto)]

mod agenda;
mod conjuncts;
mod disjuncts;
mod links;
mod parallel;
mod walking;
mod watching;

pub use walking::order_goal;
