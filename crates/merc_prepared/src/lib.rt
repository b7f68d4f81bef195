//! What is asked, ready to run: the code of a module and of a goal, for workers with what stands at their sites, or for the
//! calling thread alone.
#![tactic(auto)]

mod alone;
mod forking;
mod preparing;

pub use alone::prepare_alone;
pub use forking::may_fork;
pub use preparing::{Prepared, prepare};
