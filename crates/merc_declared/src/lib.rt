//! What the declarations of a file have to name and to have: known types, modes with their categories, and clauses.
#![tactic(auto)]

mod clause_heads;
mod known_types;
mod mode_counts;

pub use clause_heads::check_clauses;
pub use known_types::check_types;
pub use mode_counts::check_modes;
