//! What workers need of a board: where branches lie that no worker runs, where they wait for values, and where they are
//! joined. A board says of each call what comes of it for one worker, its seat and its branch, and nothing of others.
#![tactic(auto)]

pub mod board;
pub mod branch;
pub mod fork;
pub mod load;

pub use board::Board;
pub use branch::{Branch, Opened, Pace, Resumed, Waited, Woken};
pub use fork::{Handover, SharedCell};
pub use load::Load;
