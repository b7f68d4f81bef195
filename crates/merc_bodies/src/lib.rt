//! The bodies of predicates: the flat forms of their clauses as one goal.
#![tactic(auto)]

mod asking;
mod grouping;
mod joining;
mod numbering;
mod occurrences;
mod renaming;

pub use asking::{Asked, asked_body};
pub use joining::bodies;
