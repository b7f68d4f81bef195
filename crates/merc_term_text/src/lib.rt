//! The text of a term, which reads as that term again.
#![tactic(auto)]

mod form;
mod work;
pub mod writing;

pub use writing::write_term;
