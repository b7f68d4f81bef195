//! Whether a text is accepted as a module, and another as a goal over it.
#![tactic(auto)]

mod checking;
mod texts;

pub use texts::{Checked, Query, check, check_query};
