//! Code as the machine runs it.
#![tactic(auto)]

mod arms;
mod combining;
mod constants;
mod copying;
mod finding;
pub mod laws;
mod leaving;
mod linking;
pub mod loaded;
mod loading;
mod passing;
mod taking;

pub use arms::Arms;
pub use loaded::{Arm, Loaded, Op, Sum};
pub use loading::load;
