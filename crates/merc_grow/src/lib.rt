//! The module that is grown from a number.
#![tactic(auto)]

mod growing;
pub mod laws;

pub use growing::grown;
