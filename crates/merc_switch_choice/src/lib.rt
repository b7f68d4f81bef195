//! The variables on which disjunctions can be switches, which of them is taken, and the arms that a switch on it has.
#![tactic(auto)]

mod arms;
mod beginnings;
mod choosing;
mod counted;
mod counts;
mod covering;
mod disjuncts;
mod gaps;
mod ordered;
mod summary;
mod symbols;
mod variables;

pub use arms::{Arms, arms_of};
pub use choosing::Candidates;
pub use counted::Disjuncts;
pub use counts::VarCounts;
pub use disjuncts::Disjunct;
pub use variables::{VarSet, bound_inputs};
