//! What is known of the parts of a body before any of them is ordered: what each binds, what has to be bound before it, and
//! what it needs.
#![tactic(auto)]

mod bound;
mod choosing;
mod collecting;
mod complete;
mod deciding;
mod facts;
mod finding;
mod joining;
mod knowing;
mod modes;
mod needing;
mod occurrences;
mod stretch;

pub use bound::BoundSet;
pub use choosing::those_in;
pub use collecting::occurrences_of;
pub use facts::Facts;
pub use knowing::facts_of;
pub use modes::modes_at;
pub use occurrences::{Occurrences, number_past};
