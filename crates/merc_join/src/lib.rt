//! A join: one ticket for each child of a fork. The last ticket that is done is given the outcomes of all children, and
//! the parent.
#![tactic(auto)]

pub mod calls;
pub mod ends;
pub mod making;
pub mod outcomes;
pub mod rule;
pub mod steps;
pub mod stub;

pub use ends::{SpentTicket, Ticket};
pub use making::new_join;
pub use outcomes::{Finished, Outcomes};
pub use rule::Forked;
