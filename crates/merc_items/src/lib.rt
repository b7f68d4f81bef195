//! The items of a module: its declarations and clauses.
#![tactic(auto)]

mod assembling;
mod declared_modes;
mod declared_types;
mod parting;
mod phases;
mod reading;

pub use reading::{module_of_items, read_module};
