//! Values that go from a block onto a heap, and from a heap into a block.
#![tactic(auto)]

pub mod freezing;
mod places;
mod reaching;
pub mod thawing;

pub use freezing::freeze;
pub use thawing::thaw;
