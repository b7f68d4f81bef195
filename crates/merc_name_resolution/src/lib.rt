//! What names mean in a module: its predicates and constructors by name and number of arguments.
#![tactic(auto)]

mod callee;
mod indexing;
mod known;

pub use callee::Callee;
pub use known::Known;
