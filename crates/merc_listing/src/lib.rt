//! The listing of compiled code.
#![tactic(auto)]

mod instructions;
mod listing;
mod parts;

pub use listing::write_listing;
