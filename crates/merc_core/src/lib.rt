//! The core: branches of scripts over workers, one event at a time. They go from one list to another without taking memory.
#![tactic(auto)]

mod branch;
mod cell;
mod course;
mod ending;
pub mod event;
pub mod executing;
mod forking;
mod happening;
mod join;
pub mod laws;
mod lists;
mod making;
mod readying;
mod resuming;
mod running;
mod signalling;
mod simple_events;
mod state;
mod taking;
mod waiting;
mod worker;

pub use event::{Event, NotNow};
pub use executing::Core;
