//! A cell: a value that is written once, and one waiter for it. Whichever of the two sides steps second is handed
//! the waiter, with the value where there is one.
#![tactic(auto)]

pub mod answer;
pub mod calls;
pub mod ends;
pub mod glance;
pub mod rule;
pub mod steps;

pub use answer::CellWait;
pub use calls::new_cell;
pub use ends::{Consumer, Producer, Spent};
pub use rule::{CellName, Fits};
