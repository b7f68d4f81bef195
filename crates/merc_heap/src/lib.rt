//! The heap of a running program: values as cells, each of which lies behind the cells that it uses.
#![tactic(auto)]

mod comparison;
mod equality;
mod functors;
pub mod heap;
pub mod slot;

pub use heap::{Heap, Mark};
