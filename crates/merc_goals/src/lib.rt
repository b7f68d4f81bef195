//! Goals as they are written: what a term is as a goal, in one list that is walked without recursion.
#![tactic(auto)]

mod faults;
mod goal;
mod links;
mod numbers;
mod planning;
mod reading;
mod roles;

pub use faults::earlier;
pub use goal::{Entry, Form, WrittenGoal};
pub use numbers::{Numbered, has_few_parts, left_of, number_behind, right_of};
pub use reading::written_goal;
