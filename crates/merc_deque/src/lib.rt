//! The sparks of one worker: it pushes and pops at the back, and other workers steal at the front.
#![tactic(auto)]

pub mod history;
pub mod laws;
pub mod making;
pub mod moves;
pub mod sparks;

pub use history::{Pass, Stolen};
pub use making::new_sparks;
pub use sparks::{Sparks, Thief};
