//! Substitutions of types, and most general unifiers.
#![tactic(auto)]

mod following;
mod occurring;
mod pairing;
mod solving;
pub mod subst;

pub use subst::{Subst, unify};
