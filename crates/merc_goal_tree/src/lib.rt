//! Goals in flat form as trees: each argument and operand is a variable.
#![tactic(auto)]

mod entries;
pub mod goal;
pub mod node_ref;
pub mod nodes;

pub use entries::Root;
pub use goal::{Comparison, Operation, Predicate, SimpleGoal, Symbol, Var, Vars};
pub use node_ref::{NodeRef, NodeView, Parts};
pub use nodes::{Node, Nodes};
