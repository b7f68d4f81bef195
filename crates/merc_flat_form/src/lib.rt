//! The flat form of goals and clauses: each argument and operand is a variable.
#![tactic(auto)]

mod closing;
mod flattening;
mod frames;
mod heads;
mod naming;
mod numbering;
mod opening;
mod operations;
mod scope_stack;
mod simple;
mod tasks;

pub use flattening::{clause_form, goal_form};
pub use operations::{comparison_of, operation_of};
