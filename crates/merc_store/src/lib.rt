//! The memory of a run: a heap, and frames whose slots stand for values over it.
#![tactic(auto)]

pub mod arms;
mod building;
mod carrying;
pub mod constants;
pub mod freezing;
pub mod moving;
pub mod performing;
pub mod returning;
pub mod several;
mod splitting;
pub mod store;
mod testing;
pub mod thawing;
pub mod trying;

pub use freezing::Frozen;
pub use store::{Backed, Done, Store};
