//! Switches: disjunctions of which each disjunct begins with a symbol of one variable that is bound before.
#![tactic(auto)]

mod copying;
mod counting;
mod finding;
mod handing;
mod judging;
mod occurring;
mod ordering;
mod planning;
mod selection;
mod tasks;
mod whole;

pub use finding::find_switches;
