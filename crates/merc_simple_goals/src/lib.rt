//! Goals that hold no others, written out in their order with their tests; and the outputs of goals, and what is told of
//! those that have no order.
#![tactic(auto)]

mod faults;
mod places;
mod testing;
mod writing;
mod written;

pub use faults::{conjunct_fault, fault_at};
pub use places::Places;
pub use writing::{order_simple, outputs_of};
pub use written::Written;
