//! Declared types, each kept once, by numbers.
#![tactic(auto)]

mod node;
mod number;
mod numbering;
mod table;

pub use node::TypeNode;
pub use number::TypeNumber;
pub use numbering::TypeNumbering;
pub use table::TypeTable;
