//! A board without a lock. Every branch that no worker runs lies in a berth of its yard; deques, cells and joins hold
//! berths.
#![tactic(auto)]

pub mod board;
pub mod calls;
pub mod children;
pub mod facing;
pub mod formed;
pub mod freeing;
pub mod making;
pub mod mooring;
pub mod named;
pub mod opening;
pub mod placing;
pub mod preparing;
pub mod seat;
pub mod sparking;
pub mod unnamed;
