//! The determinism categories of ordered goals.
#![tactic(auto)]

mod basics;
mod closing;
mod faults;
mod folding;
mod grading;
mod planning;
mod seen;
mod symbols;
mod telling;

pub use faults::{first_of, procedure_fault, query_fault};
pub use grading::grade;
