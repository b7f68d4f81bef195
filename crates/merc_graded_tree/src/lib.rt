//! Goals whose parts stand in the order in which they go, with their outputs and, once they are known, their categories.
#![tactic(auto)]

pub mod basic;
mod entries;
pub mod node_ref;
pub mod nodes;
pub mod pushing;

pub use basic::{BasicGoal, Procedure, Site};
pub use entries::{Label, Root, Running};
pub use node_ref::{NodeRef, NodeView, Parts};
pub use nodes::Nodes;
pub use pushing::push_all;
