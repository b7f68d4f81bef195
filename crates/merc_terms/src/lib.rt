//! The terms of Mercury text: the second phase of reading it, exact for every list of tokens.
#![tactic(auto)]

mod built;
mod frame;
mod items;
mod moving;
mod operators;
mod reading;
mod starting;
mod texts;

pub use items::{read_goal, read_items};
pub use operators::{Fixity, Operator, infix, prefix};
pub use texts::{GOAL_LIMIT, read_goal_text, read_text};
