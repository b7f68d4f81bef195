//! The scopes of variables: which variables each goal brings with it.
#![tactic(auto)]

mod first_places;
mod introducing;
mod listing;
mod occurrence;
mod occurring;

pub use introducing::bindings;
pub use occurrence::Occurrence;
