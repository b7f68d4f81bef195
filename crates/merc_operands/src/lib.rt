//! Terms by their names and the number of their arguments, and the members of a chain of one operator.
#![tactic(auto)]

mod listing;
mod operands;

pub use listing::{arguments, members};
pub use operands::{Operands, operands_of, plain_name};
