//! The items of a file joined with those of the library units that it imports, and what is declared twice among them.
#![tactic(auto)]

mod distinct_names;
mod doubles;
mod entry;
mod joining;
mod key_set;
mod library;
mod moded;
mod units;

pub use distinct_names::DistinctNames;
pub use doubles::{check_doubles, type_key};
pub use entry::Entry;
pub use joining::{imports, join};
pub use key_set::{KeySet, key_of};
pub use moded::has_mode;
pub use units::{Units, read_units};
