//! A yard: one table with a slot for each berth. What lies in a slot belongs to whoever has its berth, and fits the spot
//! that the berth knows. Berths go from thread to thread; neither putting nor taking waits for a lock or takes memory.
#![tactic(auto)]

pub mod berth;
pub mod calls;
pub mod rule;
pub mod spot;
pub mod yard;

pub use berth::Berth;
pub use calls::open_yard;
pub use rule::{Lies, NextSpot};
pub use spot::{Purpose, Spot};
pub use yard::Yard;
