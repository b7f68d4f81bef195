//! Whether goals are ready, asked again and again while more is bound.
#![tactic(auto)]

mod asking;
mod chains;
mod joined_goals;
mod simple;
mod sweeping;
mod waiting;

pub use asking::advance;
pub use joined_goals::members;
pub use simple::mode_taken;
