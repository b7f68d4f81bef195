//! Frames of slots, callers and choice points in memory.
#![tactic(auto)]

mod copying;
pub mod frames;
mod handing;
mod kept;
pub mod passing;
pub mod slot;

pub use frames::{Backed, Frames};
pub use passing::Pass;
pub use slot::Slot;
