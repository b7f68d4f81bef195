//! The top call: everything that the program does.
#![tactic(auto)]

mod answering;
mod checking;
mod lines;
mod preparing;
mod words;

pub use answering::answer;
pub use merc_transfer::statuses;
