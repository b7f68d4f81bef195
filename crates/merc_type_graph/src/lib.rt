//! Equations of types, solved in one graph.
#![tactic(auto)]

mod cell;
mod fixing;
pub mod graph;
mod joining;
pub mod place;
mod store;
mod visiting;

pub use graph::TypeGraph;
pub use place::Place;
