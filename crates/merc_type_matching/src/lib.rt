//! Declared types that are alike but for their type variables, and which of these stand at one place. Type variables of
//! declarations as the parts of a goal use them.
#![tactic(auto)]

mod linked;
mod listed;
mod matching;
mod matchings;
mod used;

pub use listed::ListedTypes;
pub use matching::{NamePair, NumberPair};
pub use matchings::Matchings;
pub use used::UsedVariable;
