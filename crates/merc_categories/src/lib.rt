//! The check of determinism categories.
#![tactic(auto)]

mod checking;

pub use checking::{check_categories, check_query_categories};
