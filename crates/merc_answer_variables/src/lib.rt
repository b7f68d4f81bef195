//! The variables of a goal whose values are its answers.
#![tactic(auto)]

mod answers;
mod reader;
mod terms;
mod variables;

pub use answers::answer_variables;
