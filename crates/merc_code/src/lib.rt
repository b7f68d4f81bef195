//! Compiled code, and what it does.
#![tactic(auto)]

pub mod code;
pub mod instruction;
pub mod laws;

pub use code::{Code, CodeParts, CompiledConjunct, CompiledProcedure};
pub use instruction::{Instruction, Mark, Target};
