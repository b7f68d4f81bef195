//! The order of the goals of procedures.
#![tactic(auto)]

mod ordering;

pub use ordering::{order, order_query};
