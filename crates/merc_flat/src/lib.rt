//! The clauses of a module and a goal in flat form, or what is wrong with their goals and with the names in them.
#![tactic(auto)]

mod clauses;
mod counting;
mod faults;
mod flattening;
mod unknown;

pub use flattening::{Query, flatten, flatten_query};
